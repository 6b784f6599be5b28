//! Taking a connection over from the rows of other threads, without a lock.
#![tactic(auto)]

mod scan;
mod takeover;

pub use scan::Over;
pub use takeover::{find_over, take_over};
