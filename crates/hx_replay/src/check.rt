//! A check of a transcript.
ghost use Rattle.std.specs.Prelude.{◌∷◌, [], codes};
ghost use Rattle.hx_replay.specs.Endings.{HasCause, IsCheckOf, TellsTranscriptFault, TellsBroken};

use crate::ending::Ending;
use crate::texts::numbers_line;
use hx_check_text::{Checked, check_text};
use hx_link::{ReadFault, Source, read_all};
use std::alloc::Global;

/// The most bytes of a transcript.
const MOST_TRANSCRIPT: usize = 16_777_216;

/// The rule of a transcript that is too long.
const TOO_LONG: u8 = 6;

fn transcript_fault(alloc: Global, line: u32, rule: u8) -> Ending
    ensures { TellsTranscriptFault line rule result }
{
    match numbers_line(alloc, b"transcript ", u64::from(line), u64::from(rule)) {
        Ok(text) => Ending::TranscriptFault(text),
        Err(_) => Ending::NoMemory,
    }
}

fn broken(alloc: Global, rule: u8, line: u32) -> Ending
    ensures { TellsBroken rule line result }
{
    match numbers_line(alloc, b"broken ", u64::from(rule), u64::from(line)) {
        Ok(text) => Ending::Broken(text),
        Err(_) => Ending::NoMemory,
    }
}

/// A check of these bytes.
fn check(alloc: Global, bytes: &[u8]) -> Ending
    ensures { IsCheckOf bytes.now result }
{
    match check_text(alloc, bytes) {
        Ok(Checked::Holds) => Ending::Holds,
        Ok(Checked::Fault { line, rule }) => transcript_fault(alloc, line, rule),
        Ok(Checked::Broken { rule, line }) => broken(alloc, rule, line),
        Err(_) => Ending::NoMemory,
    }
}

pub(crate) fn check_source<S: Source>(alloc: Global, source: &mut S) -> Ending
    ensures { HasCause (codes "check" ∷ []) (S.state source.old) (S.state source.new) result }
{
    match read_all(alloc, source, MOST_TRANSCRIPT) {
        Ok(bytes) => {
            if bytes.len() > MOST_TRANSCRIPT {
                transcript_fault(alloc, 1, TOO_LONG)
            } else {
                check(alloc, bytes.as_slice())
            }
        }
        Err(ReadFault::Fault) => Ending::SourceFault,
        Err(ReadFault::NoMemory) => Ending::NoMemory,
    }
}
