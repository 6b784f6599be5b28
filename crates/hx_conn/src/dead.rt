//! A connection that carries nothing any more.

use hx_base::ConnId;
use hx_link::Link;

/// A connection that is dead. Its link can only be buried.
#[derive(Drop)]
pub struct Dead<L: Link> {
    pub link: L,
    pub id: ConnId,
    /// 1: a read told the end. 2: a read gave a byte that no request had asked for. 3: a read
    /// failed. 4: the net failed to attach the link.
    pub why: u8,
}
