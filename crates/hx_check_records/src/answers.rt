//! Answers that came back spelled anew.
ghost use Rattle.std.specs.Prelude.{◌≡◌, ◌≤◌, ℕ, Bool, false, List, ◌↔◌, ◌++◌, drop, length, IsTrue, MatchOption};
ghost use Rattle.httparse.specs.Grammar as grammar;
ghost use Rattle.hx_message.specs.Body.{IsBody};
ghost use Rattle.hx_message.specs.Forwarded.{IsFinal, forwarded_answer};
ghost use Rattle.hx_message.specs.Partial.{IsPrefix};
ghost use Rattle.hx_check_records.specs.Exchanges.{ComesBack, BeginsBack};
ghost use Rattle.hx_check_records.specs.Looks.{AnswerStands};

use crate::body::is_body;
use crate::looks::{AnswerLook, look_answer};
use crate::prefix::{behind, starts};
use crate::requests::is_nothing;
use crate::texts::{MOST_TEXT, begins_text, is_text, spell_answer};
use hx_frame::body_of_answer;
use hx_head::AnswerHead;
use hx_message::{BodyKind, MethodKind};

/// How long the text of the interim head is, if the client was given it next.
fn after_interim(took: &[u8], gave: &[u8], head: &AnswerHead) -> Option<usize>
    requires { (g : grammar.ResponseHead) × AnswerStands took.now head.now g }
    ensures { (g : grammar.ResponseHead) → AnswerStands took.now head.now g → MatchOption result
        (IsPrefix (forwarded_answer g false) gave.now → ⊥)
        (λ n. (n ≤ length gave.now) × (gave.now ≡ forwarded_answer g false ++ drop n gave.now)) }
{
    let mut text = [0u8; MOST_TEXT];
    let n = spell_answer(took, head, false, &mut text);
    if starts(gave, &text[..n]) {
        Some(n)
    } else {
        None
    }
}

/// Whether what the client was given next is a beginning of the text of the interim head.
fn begins_interim(took: &[u8], gave: &[u8], head: &AnswerHead) -> bool
    requires { (g : grammar.ResponseHead) × AnswerStands took.now head.now g }
    ensures { (g : grammar.ResponseHead) → AnswerStands took.now head.now g
        → IsTrue result ↔ IsPrefix gave.now (forwarded_answer g false) }
{
    let mut text = [0u8; MOST_TEXT];
    let n = spell_answer(took, head, false, &mut text);
    starts(&text[..n], gave)
}

/// Whether it is a beginning of the text of the final head and what is behind it.
fn begins_final(closing: bool, took: &[u8], gave: &[u8], head: &AnswerHead) -> bool
    requires { (g : grammar.ResponseHead) × AnswerStands took.now head.now g }
    ensures { (g : grammar.ResponseHead) → AnswerStands took.now head.now g
        → IsTrue result ↔ IsPrefix gave.now (forwarded_answer g closing ++ drop head.now.length took.now) }
{
    let mut text = [0u8; MOST_TEXT];
    let n = spell_answer(took, head, closing, &mut text);
    begins_text(&text[..n], &took[head.length as usize..], gave)
}

/// Whether what is behind the final head is a whole body, and the client was given the head and the body.
fn ends_with(closing: bool, took: &[u8], gave: &[u8], head: &AnswerHead, kind: BodyKind) -> bool
    requires { (g : grammar.ResponseHead) × AnswerStands took.now head.now g }
    ensures { (g : grammar.ResponseHead) → AnswerStands took.now head.now g
        → IsTrue result ↔ (IsBody kind (drop head.now.length took.now)
        × (gave.now ≡ forwarded_answer g closing ++ drop head.now.length took.now)) }
{
    let body = &took[head.length as usize..];
    let mut text = [0u8; MOST_TEXT];
    let n = spell_answer(took, head, closing, &mut text);
    is_body(kind, body) && is_text(&text[..n], body, gave)
}

/// Whether the answer with that final head is whole and came back.
fn ends_back(method: MethodKind, closing: bool, took: &[u8], gave: &[u8], head: &AnswerHead) -> bool
    requires { (g : grammar.ResponseHead) × AnswerStands took.now head.now g × IsFinal g }
    ensures { IsTrue result ↔ ComesBack method closing took.now gave.now }
{
    match body_of_answer(method, took, head) {
        Err(_) => false,
        Ok(kind) => ends_with(closing, took, gave, head, kind),
    }
}

/// Whether took is a whole answer to the method, and gave is what goes out for it.
pub(crate) fn comes_back(method: MethodKind, closing: bool, took: &[u8], gave: &[u8]) -> bool
    ensures { IsTrue result ↔ ComesBack method closing took.now gave.now }
{
    let mut rest = took;
    let mut left = gave;
    'heads: loop {
        match look_answer(rest) {
            AnswerLook::Neither => return false,
            AnswerLook::Final(head) => return ends_back(method, closing, rest, left, &head),
            AnswerLook::Interim(head) => match after_interim(rest, left, &head) {
                None => return false,
                Some(n) => {
                    left = behind(left, n);
                    rest = behind(rest, head.length as usize);
                }
            },
        }
    }
}

/// Whether gave is a beginning of what goes out for an answer of which took is the front.
pub(crate) fn begins_back(closing: bool, took: &[u8], gave: &[u8]) -> bool
    ensures { IsTrue result ↔ BeginsBack closing took.now gave.now }
{
    let mut rest = took;
    let mut left = gave;
    'heads: loop {
        if is_nothing(left) {
            return true;
        }
        match look_answer(rest) {
            AnswerLook::Neither => return false,
            AnswerLook::Final(head) => return begins_final(closing, rest, left, &head),
            AnswerLook::Interim(head) => match after_interim(rest, left, &head) {
                None => return begins_interim(rest, left, &head),
                Some(n) => {
                    left = behind(left, n);
                    rest = behind(rest, head.length as usize);
                }
            },
        }
    }
}
