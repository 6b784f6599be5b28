//! Closing what rests at a board of words and slots, without a lock: purges and drains; and the whole
//! seat of a thread at such a board.
#![tactic(auto)]

mod drain;
mod own;
mod purge;
mod slot_seat;
mod sweep;

pub use drain::{drain_next, set_drain, set_ready};
pub use purge::{NewInterval, due, purge_next};
pub use slot_seat::SlotSeat;
