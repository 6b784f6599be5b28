//! Lanes, each of which carries items of two threads to a third, in each giver's order and each item once.
#![tactic(auto)]

mod crossing;
mod errand;
mod giver;
mod lanes;
mod making;
mod rule;
mod taker;

pub use crossing::ends_cross;
pub use errand::Errand;
pub use giver::{Giver, LaneFull};
pub use lanes::Lane;
pub use making::lane;
pub use taker::Taker;
