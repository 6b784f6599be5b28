//! Heads as they go out.
ghost use Rattle.std.specs.Prelude.{◌≡◌, ◌≤◌, ◌+◌, length, take, ◌++◌, ◌↔◌, IsTrue};
ghost use Rattle.httparse.specs.Grammar as grammar;
ghost use Rattle.hx_message.specs.Forwarded.{forwarded_request, forwarded_answer};
ghost use Rattle.hx_message.specs.Partial.{IsPrefix};
ghost use Rattle.hx_check_records.specs.Looks.{RequestStands, AnswerStands};

use crate::prefix::{behind, starts};
use hx_head::{AnswerHead, RequestHead, forward_answer, forward_request};

/// The most bytes of a head that goes out.
pub(crate) const MOST_TEXT: usize = 18_432;

/// Writes the request head as it goes out, and tells how long it is.
pub(crate) fn spell_request(bytes: &[u8], head: &RequestHead, out: &mut [u8]) -> usize
    requires head { (g : grammar.RequestHead) × RequestStands bytes.now head.now g }
    requires room { length out.old ≡ 18432 }
    ensures within { result ≤ length out.new }
    ensures text { (g : grammar.RequestHead) → RequestStands bytes.now head.now g
        → take result out.new ≡ forwarded_request g }
{
    match forward_request(bytes, head, out) {
        Ok(n) => n,
        Err(_) => unreachable!(),
    }
}

/// Writes the answer head as it goes out, and tells how long it is.
pub(crate) fn spell_answer(bytes: &[u8], head: &AnswerHead, closing: bool, out: &mut [u8]) -> usize
    requires head { (g : grammar.ResponseHead) × AnswerStands bytes.now head.now g }
    requires room { length out.old ≡ 18432 }
    ensures within { result ≤ length out.new }
    ensures text { (g : grammar.ResponseHead) → AnswerStands bytes.now head.now g
        → take result out.new ≡ forwarded_answer g closing }
{
    match forward_answer(bytes, head, closing, out) {
        Ok(n) => n,
        Err(_) => unreachable!(),
    }
}

/// The same of bytes that are no shorter than the text.
fn goes_past(text: &[u8], rest: &[u8], bytes: &[u8]) -> bool
    requires { length text.now ≤ length bytes.now }
    ensures { IsTrue result ↔ IsPrefix bytes.now (text.now ++ rest.now) }
{
    let front = starts(bytes, text);
    let back = behind(bytes, text.len());
    front && starts(rest, back)
}

/// Whether the bytes begin the text and then the rest.
pub(crate) fn begins_text(text: &[u8], rest: &[u8], bytes: &[u8]) -> bool
    ensures { IsTrue result ↔ IsPrefix bytes.now (text.now ++ rest.now) }
{
    if bytes.len() <= text.len() {
        starts(text, bytes)
    } else {
        goes_past(text, rest, bytes)
    }
}

/// Whether the bytes are as many as those of the text and of the rest.
fn has_size(text: &[u8], rest: &[u8], bytes: &[u8]) -> bool
    ensures { IsTrue result ↔ (length bytes.now ≡ length text.now + length rest.now) }
{
    bytes.len() >= text.len() && bytes.len() - text.len() == rest.len()
}

/// Whether the bytes are the text and then the rest.
pub(crate) fn is_text(text: &[u8], rest: &[u8], bytes: &[u8]) -> bool
    ensures { IsTrue result ↔ (bytes.now ≡ text.now ++ rest.now) }
{
    has_size(text, rest, bytes) && begins_text(text, rest, bytes)
}
