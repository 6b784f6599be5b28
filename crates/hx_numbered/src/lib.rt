//! Values under numbers that rise: found by a binary search, kept in a slab.
#![tactic(auto)]

mod numbered;

pub use numbered::Numbered;
