//! Scripts and transcripts of replays: their types and their texts.
#![tactic(auto)]

mod laws;
mod link_lines;
mod mark_lines;
mod numbers;
mod pieces;
mod print;
mod record_lines;
mod transcript;

pub use hx_record::{
    Carried, ClientBytes, ConnBytes, CutCause, Kind, Left, LeftCause, Served, Told,
};
pub use hx_script_parts::{ClientLine, Script, TextFault, one_byte_text, read_quoted, read_script};
pub use laws::one_transcript;
pub use numbers::numbers_fit;
pub use print::print_transcript;
pub use transcript::{ServerPart, Transcript};
