//! The replay of any script of one thread: a text in, and a text or a fault out.
#![tactic(auto)]

mod plays;

pub use plays::{MOST_SCRIPT, Replay, replay_any};
