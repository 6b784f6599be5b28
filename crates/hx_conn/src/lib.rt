//! Connections to servers, typed by whether they rest or carry an exchange.
#![tactic(auto)]

mod busy;
mod causes;
mod conn;
mod dead;
mod exchange;
mod not_rested;
mod rested;

pub use busy::Busy;
pub use dead::Dead;
pub use hx_message::MethodKind;
pub use not_rested::NotRested;
pub use rested::Rested;
