//! How far an exchange has come.
ghost use Rattle.std.specs.Prelude.{◌≡◌, ◌≤◌};
ghost use Rattle.hx_conn.specs.Causes.{rest_cause};

use crate::causes::RestCause;
use hx_message::MethodKind;

/// The end of an answer.
#[derive(Clone, Copy, Debug, PartialEq, Eq)]
pub struct AnswerEnd {
    /// How many bytes the whole answer has.
    pub len: u64,
    /// The connection persists after it.
    pub persistent: bool,
}

/// A request and its answer, as far as they went.
#[derive(Clone, Copy, Debug, PartialEq, Eq)]
pub struct Exchange {
    /// The request's.
    pub method: MethodKind,
    /// How many bytes were sent on the link and taken of it before.
    pub sent_from: u64,
    pub taken_from: u64,
    /// The whole request was written.
    pub asked: bool,
    /// The end of the answer, once it was found.
    pub answer: Option<AnswerEnd>,
    /// A read or a write failed.
    pub failed: bool,
}

impl Exchange {
    /// Why the connection may not rest after it, where so many bytes were taken in all and it had
    /// so many uses before.
    pub fn refusal(&self, taken: u64, uses: u16) -> Option<RestCause>
        requires { self.now.taken_from ≤ taken }
        ensures { result ≡ rest_cause self.now taken uses }
    {
        if !self.asked {
            return Some(RestCause::AskOpen);
        }
        let Some(answer) = self.answer else {
            return Some(RestCause::AnswerOpen);
        };
        if answer.len < taken - self.taken_from {
            return Some(RestCause::Leftover);
        }
        if !answer.persistent {
            return Some(RestCause::NoPersistence);
        }
        if uses == u16::MAX {
            return Some(RestCause::UsesSpent);
        }
        if self.failed {
            return Some(RestCause::Faulted);
        }
        None
    }
}
