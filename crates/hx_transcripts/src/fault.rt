//! The first fault of a text.
ghost use Rattle.std.specs.Prelude.{◌≡◌};
ghost use Rattle.hx_transcripts.specs.Faults.{stop_at};
ghost use Rattle.hx_transcripts.specs.declared.fault.Stop.TheVariants as stop;

use hx_transcripts_parts::{Refusal, Rule};

/// A line that is faulty, and the rule that it breaks.
#[derive(Clone, Copy, PartialEq, Eq, Debug)]
pub struct Flaw {
    /// Counted from 1.
    pub line: u32,
    pub rule: Rule,
}

/// Why a text was not read.
#[derive(Clone, Copy, PartialEq, Eq, Debug)]
pub enum Stop {
    Memory,
    At(Flaw),
}

/// The refusal of a line, with the number of the line.
pub fn at_line(line: u32, refusal: Refusal) -> Stop
    ensures { result ≡ stop_at line refusal }
{
    match refusal {
        Refusal::Memory => Stop::Memory,
        Refusal::Fault(rule) => Stop::At(Flaw { line, rule }),
    }
}

/// The line breaks the rule.
pub fn broken(line: u32, rule: Rule) -> Stop
    ensures { result ≡ stop.At (record { line = line; rule = rule }) }
{
    Stop::At(Flaw { line, rule })
}
