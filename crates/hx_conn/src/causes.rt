//! Why a connection is dead, and why it may not rest.
ghost use Rattle.std.specs.Prelude.{◌≡◌};
ghost use Rattle.hx_conn.specs.Causes.{death_code, rest_code, death_of};

use hx_link::Got;

/// Why a connection is dead.
#[derive(Clone, Copy, Debug, PartialEq, Eq)]
pub enum Death {
    /// A read told the end.
    Ended,
    /// A read gave a byte, and no request had asked for it.
    Spoke,
    /// A read failed.
    LinkFault,
    /// The net failed to attach the link.
    AttachFault,
}

impl Death {
    /// The number that stands for it.
    pub fn code(self) -> u8
        ensures { result ≡ death_code self }
    {
        match self {
            Death::Ended => 1,
            Death::Spoke => 2,
            Death::LinkFault => 3,
            Death::AttachFault => 4,
        }
    }
}

/// Why a connection that rests is dead after this answer of a read.
pub fn death_by(got: Got) -> Option<Death>
    ensures { result ≡ death_of got }
{
    match got {
        Got::Bytes(_) => Some(Death::Spoke),
        Got::NotYet => None,
        Got::End => Some(Death::Ended),
        Got::Failed => Some(Death::LinkFault),
    }
}

/// Why a busy connection may not rest.
#[derive(Clone, Copy, Debug, PartialEq, Eq)]
pub enum RestCause {
    /// The request isn't wholly written.
    AskOpen,
    /// The answer isn't wholly read.
    AnswerOpen,
    /// More bytes were taken than the answer has.
    Leftover,
    /// The connection doesn't persist after the answer.
    NoPersistence,
    /// It has as many uses as a face can tell.
    UsesSpent,
    /// A read or a write of this exchange failed.
    Faulted,
}

impl RestCause {
    /// The number that stands for it.
    pub fn code(self) -> u8
        ensures { result ≡ rest_code self }
    {
        match self {
            RestCause::AskOpen => 1,
            RestCause::AnswerOpen => 2,
            RestCause::Leftover => 3,
            RestCause::NoPersistence => 4,
            RestCause::UsesSpent => 5,
            RestCause::Faulted => 6,
        }
    }
}
