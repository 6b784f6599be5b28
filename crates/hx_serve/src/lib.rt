//! Serving: worker threads with their own loops, a thread at the door, and one that reads orders.
#![tactic(auto)]

mod crew;
mod endings;
mod fresh;
mod report;
mod seating;
mod serve;
mod threads;

pub use serve::serve_main;
