//! The board of one server's idle connections: a word and a slot for each place, and seats whose
//! steps stand in one history.
#![tactic(auto)]

mod board;
mod rule;
mod seat;
mod steps;
mod view;
mod words;

pub use board::Board;
pub use seat::{Claim, PlaceSeat};
pub use view::{Hand, Role, View};
