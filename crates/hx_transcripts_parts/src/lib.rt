//! Private parts of hx_transcripts: the reader of single lines of a transcript.
#![tactic(auto)]

mod fault;
mod keywords;
mod laws;
mod marks;
mod numbers;
mod pieces;
mod records;
mod spelling;
mod words;

pub use fault::{Refusal, Rule};
pub use keywords::{MarkWord, RecordWord, mark_word, record_word};
pub use laws::{
    byte_texts_read_back, marks_read_back, records_read_back, rules_read_back, totals_read_back,
    words_read_back,
};
pub use pieces::server_named;
pub use records::{Begin, Exchange};
pub use words::Words;
