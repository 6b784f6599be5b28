//! The tests, in files by subject.

mod bench;
mod clients;
mod marks;
mod plans;
mod rows;
mod seats;
mod servers;
