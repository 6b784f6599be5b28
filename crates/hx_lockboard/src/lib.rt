//! The board of a server whose rows all stand in one value, which is exchanged out and in, and the
//! seats at it.
#![tactic(auto)]

mod board;
mod desk;
mod other_rows;
mod rule;
mod seat;
mod telling;

pub use board::{LockBoard, lock_board};
pub use seat::LockSeat;
pub use telling::tell_each_other;
