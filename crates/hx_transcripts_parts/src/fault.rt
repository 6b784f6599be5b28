//! Why a transcript is refused.
ghost use Rattle.std.specs.Prelude.{◌≡◌};
ghost use Rattle.hx_transcripts_parts.specs.Faults.{code_of};
ghost use Rattle.hx_transcripts_parts.specs.declared.fault.Refusal.TheVariants.{Memory};

use hx_base::NoMemory;
use std::alloc::{AllocError, AllocFailed};

/// What is wrong with a line of a transcript.
#[derive(Clone, Copy, PartialEq, Eq, Debug)]
pub enum Rule {
    /// The first line isn't `hx-transcript 1`.
    BadFirstLine,
    /// A line of no form.
    BadLine,
    /// No number, or one that its type doesn't hold.
    BadNumber,
    /// No byte text, or not its one spelling.
    BadText,
    /// A line of a form that doesn't stand here, a `server` line of a name that is there already, or no `end` as
    /// the last line.
    WrongOrder,
    /// A text above 16,777,216 bytes.
    TooLong,
    /// A server that no `server` line names.
    NoSuchName,
}

impl Rule {
    /// The number that stands for the rule.
    pub fn code(self) -> u8
        ensures { result ≡ code_of self }
    {
        match self {
            Rule::BadFirstLine => 1,
            Rule::BadLine => 2,
            Rule::BadNumber => 3,
            Rule::BadText => 4,
            Rule::WrongOrder => 5,
            Rule::TooLong => 6,
            Rule::NoSuchName => 7,
        }
    }
}

/// Why a part of a line was not read.
#[derive(Clone, Copy, PartialEq, Eq, Debug)]
pub enum Refusal {
    Memory,
    Fault(Rule),
}

impl From<NoMemory> for Refusal {
    ghost from_gives = { λ _ e. e ≡ Memory };

    fn from(_e: NoMemory) -> Refusal {
        Refusal::Memory
    }
}

impl From<AllocError> for Refusal {
    ghost from_gives = { λ _ e. e ≡ Memory };

    fn from(_e: AllocError) -> Refusal {
        Refusal::Memory
    }
}

impl<T: Drop> From<AllocFailed<T>> for Refusal {
    ghost from_gives = { λ _ e. e ≡ Memory };

    fn from(_e: AllocFailed<T>) -> Refusal {
        Refusal::Memory
    }
}
