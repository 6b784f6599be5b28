//! The replay of a script of one thread: by moments, rounds and turns over one worker.
#![tactic(auto)]

mod due;
mod ran;
mod running;
mod seats;
mod whole;

pub use ran::Ran;
pub use running::{Halt, Over, Running};
pub use seats::RunSeat;
pub use whole::run_script;
