//! A thread's own row: what its thread parked there, in the order of parking.
#![tactic(auto)]

mod row;
mod stays;
mod steps;

pub use row::Row;
pub use stays::Stay;
