//! How orders end.

/// How the orders end.
#[derive(Clone, Copy, Debug, PartialEq, Eq)]
pub enum OrdersEnd {
    /// A line `stop` came.
    Stop,
    /// The source has no more.
    Over,
    SourceFault,
    SinkFault,
    NoMemory,
}
