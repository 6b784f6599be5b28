//! What a worker answers.

use hx_link::Link;
use hx_record::{Left, Served};

/// Why a client isn't admitted.
#[derive(Clone, Copy, PartialEq, Eq, Debug)]
pub enum NoEntry {
    /// 1,024 sessions are there.
    SessionsFull,
    /// The last number was u32's greatest.
    NumbersSpent,
    /// Want of memory.
    NoMemory,
}

/// A client that isn't admitted.
#[derive(Drop)]
pub struct Refused<L: Link> {
    pub client: L,
    pub why: NoEntry,
}

/// The end of a session that was stopped: the record of what was under way, and its Left.
#[derive(Clone, Copy, PartialEq, Eq, Debug)]
pub struct Stopped {
    pub served: Option<Served>,
    pub left: Left,
}
