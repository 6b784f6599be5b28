//! Totals of what was done at servers: counted from entries, added up, and reported as a line.
#![tactic(auto)]

mod line;
mod tally;

pub use hx_base::Totals;
pub use line::report;
pub use tally::Tally;
