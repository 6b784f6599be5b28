//! A text is read, and what it spells is judged.
ghost use Rattle.std.specs.Prelude.{◌≡◌, IfOk};
ghost use Rattle.hx_script.specs.Numbers.{HasNumbers};
ghost use Rattle.hx_check_text.specs.Checked.{IsJudged, IsChecked};

use hx_base::NoMemory;
use hx_check::{Broken, check_by_tables};
use hx_script::{TextFault, Transcript, numbers_fit};
use hx_transcripts::read_transcript;
use std::alloc::Global;

/// What is found of a text.
#[derive(Clone, Copy, PartialEq, Eq, Debug)]
pub enum Checked {
    /// It spells a transcript that breaks no rule.
    Holds,
    /// It is no transcript, or too long to be read.
    Fault {
        /// The first line that is faulty, counted from 1.
        line: u32,
        /// The first rule of reading that this line breaks, from 1 to 7.
        rule: u8,
    },
    /// It spells a transcript that breaks a rule.
    Broken {
        /// The first rule that is broken, from 1 to 6.
        rule: u8,
        /// The first line that breaks it, counted from 1.
        line: u32,
    },
}

fn judged(alloc: Global, t: &Transcript) -> Result<Checked, NoMemory>
    ensures judged { IfOk result (IsJudged t.now) }
    ensures numbers { HasNumbers t.now }
{
    numbers_fit(t);
    match check_by_tables(alloc, t)? {
        None => Ok(Checked::Holds),
        Some(Broken { rule, line }) => Ok(Checked::Broken { rule, line }),
    }
}

/// Reads a text as a transcript and judges what it spells. The one error is want of memory.
///
/// The text has at most 16,777,216 bytes; a longer one breaks the sixth rule of reading at its first line.
pub fn check_text(alloc: Global, text: &[u8]) -> Result<Checked, NoMemory>
    ensures { IfOk result (λ c. IsChecked text.now c) }
{
    match read_transcript(alloc, text) {
        Ok(t) => judged(alloc, &t),
        Err(TextFault::At { line, rule }) => Ok(Checked::Fault { line, rule }),
        Err(_) => Err(NoMemory),
    }
}
