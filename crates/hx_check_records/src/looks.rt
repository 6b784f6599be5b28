//! Heads at the front of bytes.
ghost use Rattle.std.specs.Prelude.{MatchOption, ◌≡◌};
ghost use Rattle.httparse.specs.Grammar as grammar;
ghost use Rattle.hx_check_records.specs.Looks.{RequestStands, NoRequestStands, AnswerStands, Looks};

use hx_head::{AnswerHead, HeadRead, RequestHead, read_answer, read_request};

/// What stands at the front of an answer's bytes.
#[derive(Clone, Copy)]
pub(crate) enum AnswerLook {
    /// An interim head (RFC 9110, section 15.2).
    Interim(AnswerHead),
    /// A final head.
    Final(AnswerHead),
    /// Neither within the limits.
    Neither,
}

/// The head of a request.
pub(crate) fn look_request(bytes: &[u8]) -> Option<RequestHead>
    ensures { MatchOption result (NoRequestStands bytes.now)
        (λ h. (g : grammar.RequestHead) × RequestStands bytes.now h g) }
{
    match read_request(bytes) {
        HeadRead::Whole(head) => Some(head),
        HeadRead::More => None,
        HeadRead::Refused(_) => None,
    }
}

/// What a head of that status is.
fn look_at(bytes: &[u8], head: AnswerHead) -> AnswerLook
    requires { (g : grammar.ResponseHead) × AnswerStands bytes.now head g }
    ensures { Looks bytes.now result }
{
    if head.status >= 200 {
        return AnswerLook::Final(head);
    }
    if head.status == 101 {
        return AnswerLook::Neither;
    }
    AnswerLook::Interim(head)
}

/// The head of an answer.
pub(crate) fn look_answer(bytes: &[u8]) -> AnswerLook
    ensures { Looks bytes.now result }
{
    match read_answer(bytes) {
        HeadRead::Whole(head) => look_at(bytes, head),
        HeadRead::More => AnswerLook::Neither,
        HeadRead::Refused(_) => AnswerLook::Neither,
    }
}
