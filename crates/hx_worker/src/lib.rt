//! The sessions of one thread: their clients are admitted, stepped and stopped, and the thread's seats are cared for.
#![tactic(auto)]

mod answers;
mod law;
mod worker;

pub use answers::{NoEntry, Refused, Stopped};
pub use law::steps_carry_headline;
pub use worker::Worker;
