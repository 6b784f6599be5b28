//! A table from three numbers to a value, of which the checks of transcripts look up what they compare.
#![tactic(auto)]

mod table;

pub use table::Table;
