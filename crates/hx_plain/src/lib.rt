//! The seat of one thread at a board of one row: it has the places to itself, and a table of its own
//! for its history.
#![tactic(auto)]

mod admit;
mod ledger;
mod plain;
mod rest;
mod row;
mod sweep;
mod take;

pub use plain::PlainSeat;
