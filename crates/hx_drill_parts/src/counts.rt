//! What a link that mirrors the load counts, and whose end it is.

use hx_base::{ConnId, ServerNo, ThreadNo};

/// The counts of a link, and what else its calls leave behind.
#[derive(Clone, Copy, Debug)]
pub struct Counts {
    pub faults: u64,
    pub read_waits: u64,
    /// The moment of the last read that had to wait.
    pub read_wait_at: u64,
    /// A read had to wait, and no byte was moved since.
    pub read_waited: bool,
    pub read_length: usize,
    pub write_length: usize,
    pub finished: bool,
    pub on_loop: Option<ThreadNo>,
}

/// Whose end of a connection a link is.
#[derive(Clone, Copy, Debug)]
pub enum Owner {
    /// A client of the load. It makes the session of this number, counted from 0.
    Client(u32),
    /// A server, dialled for this number.
    Server(ServerNo, ConnId),
}
