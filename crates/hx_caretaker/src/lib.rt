//! The caretaker's work at a thread's seats: closing what rests too long, draining a server, and taking it back.
#![tactic(auto)]

mod orders;
mod rounds;
mod sweep;

pub use orders::{order_seat, order_seats};
pub use rounds::{tick_seat, tick_seats};
