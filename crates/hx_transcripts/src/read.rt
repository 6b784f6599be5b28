//! Reading a whole text.
ghost use Rattle.std.specs.Prelude.{◌≡◌, ◌+◌, ◌≤◌, length, IfOk, IfErr, Ok};
ghost use Rattle.hx_script.specs.Printed.{Spells};
ghost use Rattle.hx_script.specs.PrintedForm.{HasPrintedForm};
ghost use Rattle.hx_script_parts.specs.Lexical.{lines_of};
ghost use Rattle.hx_transcripts_parts.specs.Faults.{Gives};
ghost use Rattle.hx_transcripts.specs.Faults.{Leads, IsFaultOf};
ghost use Rattle.hx_transcripts.specs.Lines.{line_read, nothing_read};
ghost use Rattle.hx_transcripts.specs.Meaning as meant;

use crate::fault::{Flaw, Stop, at_line, broken};
use crate::lines::{begun, read_line};
use crate::reading::{Parts, Reading};
use hx_config_parts::same;
use hx_script::{TextFault, Transcript};
use hx_script_parts::Lines;
use hx_transcripts_parts::Rule;
use std::alloc::Global;

/// The greatest length of a text.
const LONGEST_TEXT: usize = 16_777_216;

fn numbered_line(read: Reading, line: u32, bytes: &[u8]) -> Result<Reading, Stop>
    ensures { Leads (λ r. r) result (meant.located line (line_read read bytes.now)) }
{
    match read_line(read, bytes) {
        Ok(read) => Ok(read),
        Err(refusal) => Err(at_line(line, refusal)),
    }
}

// What the lines behind the first one say, and the number of the last line.
fn read_lines(alloc: Global, lines: &mut Lines<'_>) -> Result<(Reading, u32), Stop>
    requires { length lines.old ≤ 16777216 }
    ensures { Leads (λ x. x) result (meant.lines_read 1 nothing_read lines.old) }
{
    let mut read = begun(alloc);
    let mut last: u32 = 1;
    while let Some(bytes) = lines.next() {
        match numbered_line(read, last + 1, bytes) {
            Ok(more) => read = more,
            Err(stop) => return Err(stop),
        }
        last += 1;
    }
    Ok((read, last))
}

// The parts, where the last line is `end`.
fn ended(read: Reading, last: u32) -> Result<Parts, Stop>
    ensures { Leads (λ p. p) result (meant.ended read last) }
{
    match read {
        Reading::Over(parts) => Ok(parts),
        _ => Err(broken(last, Rule::WrongOrder)),
    }
}

// A line feed ends the text.
fn is_closed(text: &[u8]) -> bool
    ensures { result ≡ meant.is_closed text.now }
{
    match text.last() {
        None => false,
        Some(b) => *b == b'\n',
    }
}

#[tactic(auto, unfolding(crate::specs::Meaning::meaning_of))]
fn read_parts(alloc: Global, text: &[u8]) -> Result<Parts, Stop>
    ensures { Leads (λ p. p) result (meant.meaning_of text.now) }
{
    if text.len() > LONGEST_TEXT {
        return Err(broken(1, Rule::TooLong));
    }
    let mut lines = Lines::of(text);
    match lines.next() {
        Some(line) if same(line, b"hx-transcript 1") => {}
        _ => return Err(broken(1, Rule::BadFirstLine)),
    }
    let (read, last) = read_lines(alloc, &mut lines)?;
    if !is_closed(text) {
        return Err(broken(last, Rule::BadLine));
    }
    ended(read, last)
}

fn transcript_of(parts: Parts) -> Transcript
    requires { HasPrintedForm parts.servers parts.records parts.clients parts.conns parts.totals }
    ensures { meant.parts_of result ≡ parts }
{
    Transcript {
        servers: parts.servers,
        records: parts.records,
        clients: parts.clients,
        conns: parts.conns,
        totals: parts.totals,
    }
}

/// The transcript that the text spells, or the first fault of the text.
///
/// The text has at most 16,777,216 bytes. See docs/FORMATS.md for its lines.
pub fn read_transcript(alloc: Global, text: &[u8]) -> Result<Transcript, TextFault>
    // What is read is printed as the text.
    ensures spells { IfOk result (λ t. Spells text.now t) }
    // A text that is read is not too long.
    ensures short { IfOk result (λ _. length text.now ≤ meant.longest_text) }
    // It is what the lines say, one after the other, and they have no fault.
    ensures reads { IfOk result (λ t. meant.meaning_of text.now ≡ Ok (meant.parts_of t)) }
    // A fault is the text's first one, unless memory ran out.
    ensures refused { IfErr result (λ e. IsFaultOf e (meant.meaning_of text.now)) }
{
    match read_parts(alloc, text) {
        Ok(parts) => Ok(transcript_of(parts)),
        Err(Stop::Memory) => Err(TextFault::NoMemory),
        Err(Stop::At(Flaw { line, rule })) => Err(TextFault::At {
            line,
            rule: rule.code(),
        }),
    }
}
