//! What an operator orders of a worker.

use crate::numbers::ServerNo;

#[derive(Clone, Copy, PartialEq, Eq, Debug)]
pub enum Order {
    /// The server takes no new request, and its resting connections are closed.
    Drain(ServerNo),
    /// The server takes requests again.
    Ready(ServerNo),
}
