//! Reading byte texts.
ghost use Rattle.std.specs.Prelude.{◌≡◌, ℕ, ◌<◌, List, [], ◌∷◌, ◌++◌, All, Some, IfOk, OnOk, MatchOption};
ghost use Rattle.std.specs.Option.{option_map};
ghost use Rattle.hx_script_parts.specs.ByteText.{quoted, Quotes, BeginsQuoted, NoQuoted, BeginsWithOne};
ghost use Rattle.hx_script_parts.specs.QuotedReading.{hex_value, first_digit, second_digit, step, read_from, quoted_at};
ghost use Rattle.hx_script_parts.specs.declared.quoted.ReadMode.TheVariants.{InText, AfterBackslash};

use hx_base::NoMemory;
use std::alloc::Global;

/// What was read of a byte's spelling.
#[derive(Clone, Copy)]
pub enum ReadMode {
    InText,
    AfterBackslash,
    AfterX,
    AfterDigit(u8),
}

/// What the next byte of the text does.
#[derive(Clone, Copy)]
pub enum Step {
    End,
    Bad,
    Byte(u8),
    Mode(ReadMode),
}

fn hex_of(b: u8) -> u8
    ensures value { result ≡ hex_value b }
    ensures small { result < 17 }
{
    match b {
        b'0'..=b'9' => b - b'0',
        b'a'..=b'f' => b - b'a' + 10,
        _ => 16,
    }
}

fn first_step(h: u8) -> Step
    ensures { result ≡ first_digit h }
{
    if h < 16 {
        Step::Mode(ReadMode::AfterDigit(h))
    } else {
        Step::Bad
    }
}

fn second_step(h: u8, l: u8) -> Step
    ensures { result ≡ second_digit h l }
{
    if h < 16 && l < 16 {
        Step::Byte(16 * h + l)
    } else {
        Step::Bad
    }
}

fn in_text(b: u8) -> Step
    ensures { result ≡ step InText b }
{
    if b == b'"' {
        Step::End
    } else if b == b'\\' {
        Step::Mode(ReadMode::AfterBackslash)
    } else if b >= 32 && b <= 126 {
        Step::Byte(b)
    } else {
        Step::Bad
    }
}

fn after_backslash(b: u8) -> Step
    ensures { result ≡ step AfterBackslash b }
{
    if b == b'"' || b == b'\\' {
        Step::Byte(b)
    } else if b == b'r' {
        Step::Byte(13)
    } else if b == b'n' {
        Step::Byte(10)
    } else if b == b'x' {
        Step::Mode(ReadMode::AfterX)
    } else {
        Step::Bad
    }
}

fn step_of(mode: ReadMode, b: u8) -> Step
    ensures { result ≡ step mode b }
{
    match mode {
        ReadMode::InText => in_text(b),
        ReadMode::AfterBackslash => after_backslash(b),
        ReadMode::AfterX => first_step(hex_of(b)),
        ReadMode::AfterDigit(h) => second_step(h, hex_of(b)),
    }
}

fn put(bytes: &mut Vec<u8>, b: u8) -> Result<(), NoMemory>
    ensures { OnOk result (bytes.new.items ≡ bytes.old.items ++ b ∷ []) }
{
    bytes.push(b)?;
    Ok(())
}

fn read_body(alloc: Global, text: &[u8]) -> Result<Option<(Vec<u8>, &[u8])>, NoMemory>
    ensures { IfOk result (λ o. option_map (λ x. (x.0.items, x.1.now)) o
        ≡ read_from InText text.now) }
{
    let mut bytes = Vec::new(alloc);
    let mut mode = ReadMode::InText;
    for i in 0..text.len() {
        match step_of(mode, text[i]) {
            Step::End => return Ok(Some((bytes, &text[i + 1..]))),
            Step::Bad => return Ok(None),
            Step::Byte(c) => {
                put(&mut bytes, c)?;
                mode = ReadMode::InText;
            }
            Step::Mode(next) => mode = next,
        }
    }
    Ok(None)
}

/// The same by the reading from the left.
pub(crate) fn read_front(alloc: Global, text: &[u8]) -> Result<Option<(Vec<u8>, &[u8])>, NoMemory>
    ensures { IfOk result (λ o. option_map (λ x. (x.0.items, x.1.now)) o ≡ quoted_at text.now) }
{
    match text {
        [b'"', rest @ ..] => read_body(alloc, rest),
        _ => Ok(None),
    }
}

/// The bytes of the byte text at the front, and what follows it; None where none is there.
/// The one error is want of memory.
pub fn read_quoted(alloc: Global, text: &[u8]) -> Result<Option<(Vec<u8>, &[u8])>, NoMemory>
    ensures reads { IfOk result (λ o. MatchOption o (NoQuoted text.now)
        (λ x. BeginsQuoted text.now x.0.items x.1.now)) }
{
    read_front(alloc, text)
}

/// A text begins with one byte text alone, and bytes in their one spelling are a byte text.
pub fn one_byte_text()
    ensures alone { (text : List ℕ) → BeginsWithOne text }
    ensures spelling { (bytes : List ℕ) → All (λ b. b < 256) bytes → Quotes (quoted bytes) bytes }
{}

/// What the reading from the left finds is the byte text that stands at the front.
pub fn byte_text_at_front()
    ensures read { (text bytes rest : List ℕ) → BeginsQuoted text bytes rest
        → quoted_at text ≡ Some (bytes, rest) }
    ensures found { (text bytes rest : List ℕ) → quoted_at text ≡ Some (bytes, rest)
        → BeginsQuoted text bytes rest }
{}
