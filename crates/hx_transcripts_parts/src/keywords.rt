//! The words of transcripts.
ghost use Rattle.std.specs.Prelude.{◌≡◌, true, false, [], ◌∷◌};
ghost use Rattle.hx_config_parts.specs.Tables.{found};
ghost use Rattle.hx_transcripts_parts.specs.Keywords as words;

use hx_base::Mode;
use hx_config_parts::same;
use hx_record::{CutCause, LeftCause};

/// The first word of a mark's line.
#[derive(Clone, Copy, PartialEq, Eq, Debug)]
pub enum MarkWord {
    Open,
    Park,
    Take,
    Close,
    Gate,
    Round,
}

/// The first word of a record's line.
#[derive(Clone, Copy, PartialEq, Eq, Debug)]
pub enum RecordWord {
    Pass,
    Cut,
    Own,
    Left,
}

/// Which kind of mark begins with the word.
pub fn mark_word(word: &[u8]) -> Option<MarkWord>
    ensures { result ≡ found words.mark_words word.now }
{
    if same(word, b"open") {
        Some(MarkWord::Open)
    } else if same(word, b"park") {
        Some(MarkWord::Park)
    } else if same(word, b"take") {
        Some(MarkWord::Take)
    } else if same(word, b"close") {
        Some(MarkWord::Close)
    } else if same(word, b"gate") {
        Some(MarkWord::Gate)
    } else if same(word, b"round") {
        Some(MarkWord::Round)
    } else {
        None
    }
}

/// Which kind of record begins with the word.
pub fn record_word(word: &[u8]) -> Option<RecordWord>
    ensures { result ≡ found words.record_words word.now }
{
    if same(word, b"pass") {
        Some(RecordWord::Pass)
    } else if same(word, b"cut") {
        Some(RecordWord::Cut)
    } else if same(word, b"own") {
        Some(RecordWord::Own)
    } else if same(word, b"left") {
        Some(RecordWord::Left)
    } else {
        None
    }
}

pub(crate) fn mode_of(word: &[u8]) -> Option<Mode>
    ensures { result ≡ found words.mode_words word.now }
{
    if same(word, b"never") {
        Some(Mode::Never)
    } else if same(word, b"safe") {
        Some(Mode::Safe)
    } else if same(word, b"aggressive") {
        Some(Mode::Aggressive)
    } else if same(word, b"always") {
        Some(Mode::Always)
    } else {
        None
    }
}

// One word for true, another for false.
fn either(word: &[u8], yes: &[u8], no: &[u8]) -> Option<bool>
    ensures { result ≡ found ((yes.now, true) ∷ (no.now, false) ∷ []) word.now }
{
    if same(word, yes) {
        Some(true)
    } else if same(word, no) {
        Some(false)
    } else {
        None
    }
}

pub(crate) fn is_first(word: &[u8]) -> Option<bool>
    ensures { result ≡ found words.take_words word.now }
{
    either(word, b"first", b"later")
}

pub(crate) fn is_draining(word: &[u8]) -> Option<bool>
    ensures { result ≡ found words.gate_words word.now }
{
    either(word, b"drain", b"ready")
}

pub(crate) fn is_closing(word: &[u8]) -> Option<bool>
    ensures { result ≡ found words.closing_words word.now }
{
    either(word, b"close", b"keep")
}

pub(crate) fn is_cut_closing(word: &[u8]) -> Option<bool>
    ensures { result ≡ found words.cut_closing_words word.now }
{
    either(word, b"close-yes", b"close-no")
}

pub(crate) fn cut_cause(word: &[u8]) -> Option<CutCause>
    ensures { result ≡ found words.cut_words word.now }
{
    if same(word, b"early") {
        Some(CutCause::Early)
    } else if same(word, b"ended") {
        Some(CutCause::Ended)
    } else if same(word, b"fault") {
        Some(CutCause::Fault)
    } else if same(word, b"broken") {
        Some(CutCause::Broken)
    } else if same(word, b"late") {
        Some(CutCause::Late)
    } else if same(word, b"client") {
        Some(CutCause::Client)
    } else if same(word, b"stop") {
        Some(CutCause::Stop)
    } else if same(word, b"silent") {
        Some(CutCause::Silent)
    } else {
        None
    }
}

pub(crate) fn left_cause(word: &[u8]) -> Option<LeftCause>
    ensures { result ≡ found words.left_words word.now }
{
    if same(word, b"end") {
        Some(LeftCause::End)
    } else if same(word, b"closing") {
        Some(LeftCause::Closing)
    } else if same(word, b"own") {
        Some(LeftCause::Own)
    } else if same(word, b"cut") {
        Some(LeftCause::Cut)
    } else if same(word, b"idle") {
        Some(LeftCause::Idle)
    } else if same(word, b"fault") {
        Some(LeftCause::Fault)
    } else if same(word, b"stop") {
        Some(LeftCause::Stop)
    } else {
        None
    }
}
