//! The bytes of links.

use hx_base::{Bytes, ConnId, ServerNo, SessionNo, ThreadNo};

/// What was read of a client's link and written to it.
#[derive(Drop)]
pub struct ClientBytes {
    pub worker: ThreadNo,
    pub session: SessionNo,
    pub took: Bytes,
    pub gave: Bytes,
}

/// What was written to a connection's link and read of it.
#[derive(Drop)]
pub struct ConnBytes {
    pub server: ServerNo,
    pub id: ConnId,
    pub sent: Bytes,
    pub took: Bytes,
}
