//! The tests, in files by subject.

mod boards;
mod callers;
mod rows;
mod seats;
mod slots;
mod totals;
