//! Why a script is refused.
ghost use Rattle.std.specs.Prelude.{◌≡◌};
ghost use Rattle.hx_script_parts.specs.Faults.{code_of};
ghost use Rattle.hx_script_parts.specs.declared.fault.Refusal.TheVariants.{Memory};

use hx_base::NoMemory;
use std::alloc::{AllocError, AllocFailed};

/// Why a text was not read.
#[derive(Clone, Copy, PartialEq, Eq, Debug)]
pub enum TextFault {
    /// The first fault: its line, counted from 1, and its rule, from 1 to 11 in this order: another first line,
    /// a line of no form, a bad number, a bad byte text, no such frontend, no such server, a bad worker, a line
    /// at the wrong place, a moment that falls, a text that is too long, too many clients or servers.
    At { line: u32, rule: u8 },
    /// The first fault of the configuration: its line, counted from the configuration's first, and its rule, which
    /// is the configuration's own.
    Config { line: u32, rule: u8 },
    NoMemory,
}

/// What is wrong with a line.
#[derive(Clone, Copy, PartialEq, Eq, Debug)]
pub enum Rule {
    /// The first line isn't `hx-script 1`.
    BadFirstLine,
    /// A line of no form at its place.
    BadLine,
    /// No number, or out of its range.
    BadNumber,
    /// No byte text.
    BadText,
    /// A frontend that is not in the configuration.
    NoSuchFrontend,
    /// A server that is not in the configuration.
    NoSuchServer,
    /// A worker that is not below the configuration's threads.
    BadWorker,
    /// A line of a link without a link, after a refused dial, after the end, or a second one of its kind.
    WrongPlace,
    /// A moment below the one before it on the same link.
    MomentFalls,
    /// A text above 1,048,576 bytes.
    TooLong,
    /// One client or one server line too many.
    TooMany,
}

impl Rule {
    /// The number that stands for the rule.
    pub fn code(self) -> u8
        ensures { result ≡ code_of self }
    {
        match self {
            Rule::BadFirstLine => 1,
            Rule::BadLine => 2,
            Rule::BadNumber => 3,
            Rule::BadText => 4,
            Rule::NoSuchFrontend => 5,
            Rule::NoSuchServer => 6,
            Rule::BadWorker => 7,
            Rule::WrongPlace => 8,
            Rule::MomentFalls => 9,
            Rule::TooLong => 10,
            Rule::TooMany => 11,
        }
    }
}

/// Why a part of a line was not read.
#[derive(Clone, Copy, PartialEq, Eq, Debug)]
pub enum Refusal {
    Memory,
    Fault(Rule),
}

/// The first fault of a text.
#[derive(Clone, Copy, PartialEq, Eq, Debug)]
pub enum Flaw {
    /// Of a line of the script.
    Line { line: u32, rule: Rule },
    /// Of the configuration.
    Config { line: u32, rule: u8 },
}

/// Why a text was not read.
#[derive(Clone, Copy, PartialEq, Eq, Debug)]
pub enum Stop {
    Memory,
    At(Flaw),
}

impl From<NoMemory> for Refusal {
    ghost from_gives = { λ _ e. e ≡ Memory };

    fn from(_e: NoMemory) -> Refusal {
        Refusal::Memory
    }
}

impl From<AllocError> for Refusal {
    ghost from_gives = { λ _ e. e ≡ Memory };

    fn from(_e: AllocError) -> Refusal {
        Refusal::Memory
    }
}

impl<T: Drop> From<AllocFailed<T>> for Refusal {
    ghost from_gives = { λ _ e. e ≡ Memory };

    fn from(_e: AllocFailed<T>) -> Refusal {
        Refusal::Memory
    }
}
