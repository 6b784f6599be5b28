//! A link and whose it is.

use hx_base::{ConnId, ServerNo};
use hx_link::Link;

/// A connection to a server.
#[derive(Drop)]
pub struct Conn<L: Link> {
    pub link: L,
    pub id: ConnId,
    pub server: ServerNo,
    /// How many whole exchanges it has carried.
    pub uses: u16,
    /// How many bytes were sent on the link, and how many were taken of it.
    pub sent: u64,
    pub taken: u64,
}
