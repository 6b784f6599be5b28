//! How a session comes to a connection and lets go of it: the choice of a server, taking and opening, parking and closing.
#![tactic(auto)]

mod choice;
mod closing;
mod connecting;
mod settle;

pub use choice::choose;
pub use closing::{close_any, close_busy, close_held};
pub use connecting::{Connected, Want, connect};
pub use settle::rest;
