//! The loops of a run: a worker's, the door's, that of the orders, and the lanes between them.
#![tactic(auto)]

mod crossing;
mod doorman;
mod guest;
mod hand;
mod lanes;
mod orders;
mod orders_end;

pub use crossing::loops_cross;
pub use doorman::Lanes;
pub use guest::{Carried, Guest};
pub use hand::Hand;
pub use lanes::{Ends, ends_of, lanes_of};
pub use orders::run_orders;
pub use orders_end::OrdersEnd;
