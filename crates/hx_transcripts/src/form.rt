//! The form of a line, which its first word says.
ghost use Rattle.std.specs.Prelude.{◌≡◌};
ghost use Rattle.hx_config_parts.specs.Tables.{found};
ghost use Rattle.hx_transcripts_parts.specs.Faults.{Gives};
ghost use Rattle.hx_transcripts.specs.Forms.{headings, total_form_in, form_in};

use hx_config_parts::same;
use hx_transcripts_parts::{MarkWord, RecordWord, Refusal, Words, mark_word, record_word};

/// What a line is.
#[derive(Clone, Copy, PartialEq, Eq, Debug)]
pub enum Form {
    /// The format and its version.
    Version,
    Server,
    Mark(MarkWord),
    /// Records follow.
    Records,
    Record(RecordWord),
    /// The bytes of links follow.
    Links,
    Client,
    Conn,
    /// The counts of servers follow.
    Totals,
    /// The counts of a server, whose name the line begins with.
    Total,
    End,
}

// The form that begins with this word alone.
fn heading(word: &[u8]) -> Option<Form>
    ensures { result ≡ found headings word.now }
{
    if same(word, b"hx-transcript") {
        Some(Form::Version)
    } else if same(word, b"server") {
        Some(Form::Server)
    } else if same(word, b"records") {
        Some(Form::Records)
    } else if same(word, b"links") {
        Some(Form::Links)
    } else if same(word, b"client") {
        Some(Form::Client)
    } else if same(word, b"conn") {
        Some(Form::Conn)
    } else if same(word, b"totals") {
        Some(Form::Totals)
    } else if same(word, b"end") {
        Some(Form::End)
    } else {
        None
    }
}

// The name of a server begins a line of totals.
fn total_form(word: &[u8]) -> Result<Form, Refusal>
    ensures { Gives (λ f. f) result (total_form_in word.now) }
{
    let mut words = Words::of(word);
    words.names()?;
    Ok(Form::Total)
}

/// The form of the line that begins with the word.
#[tactic(auto, unfolding(crate::specs::Forms::form_in))]
pub fn form_of(word: &[u8]) -> Result<Form, Refusal>
    ensures { Gives (λ f. f) result (form_in word.now) }
{
    if let Some(form) = heading(word) {
        return Ok(form);
    }
    if let Some(mark) = mark_word(word) {
        return Ok(Form::Mark(mark));
    }
    match record_word(word) {
        Some(record) => Ok(Form::Record(record)),
        None => total_form(word),
    }
}
