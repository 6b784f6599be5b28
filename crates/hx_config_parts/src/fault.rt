//! Why a text is refused.
ghost use Rattle.std.specs.Prelude.{◌≡◌};
ghost use Rattle.hx_config_parts.specs.Faults.{code_of};
ghost use Rattle.hx_config_parts.specs.declared.fault.Refusal.TheVariants.{Memory};
ghost use Rattle.hx_config_parts.specs.declared.fault.Stop.TheVariants as stop;

use hx_base::NoMemory;
use std::alloc::{AllocError, AllocFailed};

/// Why a configuration was not read.
#[derive(Clone, Copy, PartialEq, Eq, Debug)]
pub enum ConfigFault {
    /// The first fault: its line, counted from 1, and its rule, from 1 to 11 in this order: a byte that is not
    /// printable ASCII, an unknown word, a line in the wrong section, a missing word, a bad number, a bad time,
    /// a bad address, a name that is there already, no such backend, past a limit, a backend without a server.
    At { line: u32, rule: u8 },
    NoMemory,
}

/// What is wrong with a line.
#[derive(Clone, Copy, PartialEq, Eq, Debug)]
pub enum Rule {
    /// A byte outside 33 to 126 in a word that is read.
    NotAscii,
    /// A word that has no meaning at its place.
    UnknownWord,
    /// A line in a section that does not have it, or before any section.
    WrongPlace,
    /// The line ends where a word must stand.
    MissingValue,
    /// Not a number, or out of its range.
    BadNumber,
    /// Not a time, or above 2,147,483,647 milliseconds.
    BadTime,
    /// Not an address.
    BadAddress,
    /// A section or a server of a name that is there already.
    DoubleName,
    /// A frontend without a backend, or with one that is not there.
    NoSuchBackend,
    /// Past a limit.
    TooMany,
    /// The backend of a frontend has no server.
    NoServer,
}

impl Rule {
    /// The number that stands for the rule.
    pub fn code(self) -> u8
        ensures { result ≡ code_of self }
    {
        match self {
            Rule::NotAscii => 1,
            Rule::UnknownWord => 2,
            Rule::WrongPlace => 3,
            Rule::MissingValue => 4,
            Rule::BadNumber => 5,
            Rule::BadTime => 6,
            Rule::BadAddress => 7,
            Rule::DoubleName => 8,
            Rule::NoSuchBackend => 9,
            Rule::TooMany => 10,
            Rule::NoServer => 11,
        }
    }
}

/// Why a part of a line was not read.
#[derive(Clone, Copy, PartialEq, Eq, Debug)]
pub enum Refusal {
    Memory,
    Fault(Rule),
}

/// The first fault of a text.
#[derive(Clone, Copy, PartialEq, Eq, Debug)]
pub struct Flaw {
    pub line: u32,
    pub rule: Rule,
}

/// Why a text was not read.
#[derive(Clone, Copy, PartialEq, Eq, Debug)]
pub enum Stop {
    Memory,
    At(Flaw),
}

impl From<AllocError> for Refusal {
    ghost from_gives = { λ _ e. e ≡ Memory };

    fn from(_e: AllocError) -> Refusal {
        Refusal::Memory
    }
}

impl<T: Drop> From<AllocFailed<T>> for Refusal {
    ghost from_gives = { λ _ e. e ≡ Memory };

    fn from(_e: AllocFailed<T>) -> Refusal {
        Refusal::Memory
    }
}

impl From<NoMemory> for Refusal {
    ghost from_gives = { λ _ e. e ≡ Memory };

    fn from(_e: NoMemory) -> Refusal {
        Refusal::Memory
    }
}

impl From<AllocError> for Stop {
    ghost from_gives = { λ _ e. e ≡ stop.Memory };

    fn from(_e: AllocError) -> Stop {
        Stop::Memory
    }
}

impl<T: Drop> From<AllocFailed<T>> for Stop {
    ghost from_gives = { λ _ e. e ≡ stop.Memory };

    fn from(_e: AllocFailed<T>) -> Stop {
        Stop::Memory
    }
}
