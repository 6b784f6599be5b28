//! What a whole replay did, told as a transcript.
#![tactic(auto)]

mod form;
mod links;
mod order;
mod servers;
mod tell;

pub use tell::tell_run;
