//! Private parts of hx_script: byte texts, and the reader of scripts.
#![tactic(auto)]

mod fault;
mod keywords;
mod laws;
mod lines;
mod moments;
mod names;
mod numbers;
mod opening;
mod quoted;
mod read;
mod reading;
mod script;
mod statements;
mod words;

pub use fault::TextFault;
pub use laws::samples;
pub use lines::Lines;
pub use quoted::{byte_text_at_front, one_byte_text, read_quoted};
pub use read::read_script;
pub use script::{ClientLine, Script};
