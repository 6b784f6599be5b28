//! A connection that may not rest.

use crate::busy::Busy;
use hx_link::Link;

/// A busy connection that may not rest, as it was.
#[derive(Drop)]
pub struct NotRested<L: Link> {
    pub busy: Busy<L>,
    /// The first of these that holds. 1: the request isn't wholly written. 2: the answer isn't
    /// wholly read. 3: more bytes were taken than the answer has. 4: the connection doesn't persist
    /// after the answer. 5: it has 65,535 uses. 6: a read or a write of this exchange failed.
    pub why: u8,
}
