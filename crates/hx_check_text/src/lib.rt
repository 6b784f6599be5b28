//! Whether a text is a transcript, and whether that transcript can be true.
#![tactic(auto)]

mod check;

pub use check::{Checked, check_text};
