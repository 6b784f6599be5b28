//! What a board is made for.

use hx_base::{Millis, PoolRules, ServerNo};

/// What all seats of a board have in common.
#[derive(Clone, Copy, PartialEq, Eq, Debug)]
pub struct BoardTerms {
    /// The server whose connections rest there.
    pub server: ServerNo,
    pub rules: PoolRules,
    /// How many threads have a row, from 1 to 16.
    pub threads: u8,
    /// The moment from which purge intervals count.
    pub start: Millis,
}
