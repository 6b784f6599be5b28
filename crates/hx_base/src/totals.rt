//! How often each thing was done at a server.

/// Each number stops at u64's greatest.
#[derive(Clone, Copy, PartialEq, Eq, Debug)]
pub struct Totals {
    /// Connections that were opened.
    pub opened: u64,
    /// Connections that were parked.
    pub parked: u64,
    /// Sessions' takes from their own thread's row.
    pub taken: u64,
    /// Sessions' takes from other threads' rows.
    pub over: u64,
    /// The caretaker's takes.
    pub care: u64,
    /// Connections that were closed.
    pub closed: u64,
}
