//! Reads the texts of transcripts.
#![tactic(auto)]

mod fault;
mod fits;
mod form;
mod laws;
mod lines;
mod links;
mod read;
mod reading;
mod records;
mod servers;
mod sums;

pub use fits::transcript_fits;
pub use laws::{is_read_back, printed_is_read_back};
pub use read::read_transcript;
