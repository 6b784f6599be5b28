//! What is told of each exchange and of each session's end, and when it is true of the links' bytes.
#![tactic(auto)]

mod bytes;
mod samples;
mod served;

pub use bytes::{ClientBytes, ConnBytes};
pub use served::{Carried, CutCause, Kind, Left, LeftCause, Served, Told};
