//! What workers are handed.

use hx_base::Order;

/// What a lane carries to a worker.
#[derive(Drop)]
pub enum Errand<L> {
    /// A client of the front of this number.
    Client(u16, L),
    /// An order to run.
    Run(Order),
    /// The worker ends.
    Stop,
}
