//! How a run of the listening program begins: its words, its configuration's file, the check of that file, and the
//! addresses at which it listens; and how each run ends.
#![tactic(auto)]

mod check;
mod ending;
mod file;
mod listening;
mod options;
mod plan;
mod start;

pub use check::check_text;
pub use ending::{Ending, end};
pub use file::{FileFault, read_file};
pub use listening::listen_all;
pub use options::{Options, Refusal, read_options};
pub use plan::Plan;
pub use start::{Start, start_up};
