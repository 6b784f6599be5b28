//! Whether a transcript that anybody wrote can be true: the first of six rules that it breaks, and the first line that breaks it.
#![tactic(auto)]

mod breaks;
mod broken;
mod check;
mod lines;
mod marks;
mod parts;
mod records;
mod sums;
mod tiles;

pub use broken::Broken;
pub use check::{check_by_tables, check_transcript};
