//! Answers: their heads are looked at, and spelled anew into the pipe to the client.
ghost use Rattle.std.specs.Prelude.{◌≡◌, ◌<◌, ◌+◌, length, true, false};
ghost use Rattle.hx_head.specs.Heads.{IsAnswerOf};
ghost use Rattle.hx_session_parts.specs.Asks.{most_text};
ghost use Rattle.hx_session_parts.specs.Answers.{AnswerLooks, SpellsAnswer, LeavesAnswer, IsShortHead};

use hx_frame::{body_of_answer, persists};
use hx_head::{AnswerHead, HeadRead, forward_answer, read_answer};
use hx_link::Pipe;
use hx_message::{BodyKind, MethodKind};

/// A final answer whose head is there.
#[derive(Clone, Copy)]
pub struct Answered {
    pub head: AnswerHead,
    /// How the end of its body is found.
    pub kind: BodyKind,
    /// The server's connection may be used again after it (RFC 9112, section 9.3).
    pub persists: bool,
}

/// What the bytes at the front of a server's pipe are.
#[derive(Clone, Copy)]
pub enum AnswerLook {
    /// The head of an interim answer (RFC 9110, section 15.2). Another head follows it.
    Interim(AnswerHead),
    /// The head of a final answer.
    Final(Answered),
    /// No whole head is there yet.
    More,
    /// The head or its framing is faulty, or the status is 101, which was not asked for.
    Broken,
}

/// Looks at a whole head.
fn look_at(method: MethodKind, bytes: &[u8], head: AnswerHead) -> AnswerLook
    requires head { IsAnswerOf bytes.now head }
    requires short { IsShortHead head }
    ensures { AnswerLooks method bytes.now result }
{
    if head.status == 101 {
        return AnswerLook::Broken;
    }
    if head.status < 200 {
        return AnswerLook::Interim(head);
    }
    match body_of_answer(method, bytes, &head) {
        Err(_) => AnswerLook::Broken,
        Ok(kind) => AnswerLook::Final(Answered {
            head,
            kind,
            persists: persists(bytes, &head),
        }),
    }
}

/// Looks for the head of an answer to a request of that method at the front of the bytes.
pub fn look_answer(method: MethodKind, bytes: &[u8]) -> AnswerLook
    ensures { AnswerLooks method bytes.now result }
{
    match read_answer(bytes) {
        HeadRead::More => AnswerLook::More,
        HeadRead::Refused(_) => AnswerLook::Broken,
        HeadRead::Whole(head) => look_at(method, bytes, head),
    }
}

/// Spells the head anew behind the bytes of the pipe to the client, and drops it from the server's. False: the pipe
/// has no room for the text, and nothing changed.
pub fn spell_answer(from: &mut Pipe, to: &mut Pipe, head: &AnswerHead, closing: bool) -> bool
    requires head { IsAnswerOf from.old.bytes head.now }
    requires short { IsShortHead head.now }
    ensures spelled { result ≡ true → SpellsAnswer from.old from.new to.old to.new head.now closing }
    ensures none { result ≡ false → LeavesAnswer from.old from.new to.old to.new head.now closing }
    ensures room { result ≡ false → to.old.capacity < length to.old.bytes + most_text }
{
    let room = to.room();
    match forward_answer(from.whole(), head, closing, to.grow(room)) {
        Ok(n) => {
            to.drop_back(room - n);
            from.drop_front(head.length as usize);
            true
        }
        Err(_) => {
            to.drop_back(room);
            false
        }
    }
}
