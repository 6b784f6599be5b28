//! Requests that went out spelled anew.
ghost use Rattle.std.specs.Prelude.{◌≡◌, ◌≤◌, ℕ, ◌↔◌, [], ◌++◌, drop, IsTrue, MatchOption};
ghost use Rattle.httparse.specs.Grammar as grammar;
ghost use Rattle.hx_message.specs.declared.MethodKind.{MethodKind};
ghost use Rattle.hx_message.specs.declared.MethodKind.TheVariants.{Connect};
ghost use Rattle.hx_message.specs.Body.{IsBody};
ghost use Rattle.hx_message.specs.Forwarded.{forwarded_request};
ghost use Rattle.hx_message.specs.Partial.{IsPrefix};
ghost use Rattle.hx_check_records.specs.Exchanges.{GoesOut, BeginsOut};
ghost use Rattle.hx_check_records.specs.Looks.{RequestStands};

use crate::body::is_body;
use crate::looks::look_request;
use crate::texts::{MOST_TEXT, begins_text, is_text, spell_request};
use hx_frame::body_of_request;
use hx_head::RequestHead;
use hx_message::{BodyKind, MethodKind};

fn is_connect(method: MethodKind) -> bool
    ensures { IsTrue result ↔ (method ≡ Connect) }
{
    matches!(method, MethodKind::Connect)
}

pub(crate) fn is_nothing(bytes: &[u8]) -> bool
    ensures { IsTrue result ↔ (bytes.now ≡ []) }
{
    bytes.is_empty()
}

/// Whether what is behind the head is a whole body, and the head and the body went out.
fn goes_out_with(ask: &[u8], sent: &[u8], head: &RequestHead, kind: BodyKind) -> bool
    requires { (g : grammar.RequestHead) × RequestStands ask.now head.now g }
    ensures { (g : grammar.RequestHead) → RequestStands ask.now head.now g
        → IsTrue result ↔ (IsBody kind (drop head.now.length ask.now)
        × (sent.now ≡ forwarded_request g ++ drop head.now.length ask.now)) }
{
    let body = &ask[head.length as usize..];
    let mut text = [0u8; MOST_TEXT];
    let n = spell_request(ask, head, &mut text);
    is_body(kind, body) && is_text(&text[..n], body, sent)
}

/// Whether the request with that head is whole and went out.
fn goes_out(ask: &[u8], sent: &[u8], head: &RequestHead) -> bool
    requires { (g : grammar.RequestHead) × RequestStands ask.now head.now g }
    ensures { IsTrue result ↔ GoesOut head.now.method ask.now sent.now }
{
    if is_connect(head.method) {
        return false;
    }
    match body_of_request(ask, head) {
        Err(_) => false,
        Ok(kind) => goes_out_with(ask, sent, head, kind),
    }
}

/// The method of the whole request, where sent is what goes out for it.
pub(crate) fn method_out(ask: &[u8], sent: &[u8]) -> Option<MethodKind>
    ensures { MatchOption result ((m : MethodKind) → GoesOut m ask.now sent.now → ⊥)
        (λ m. GoesOut m ask.now sent.now) }
{
    match look_request(ask) {
        None => None,
        Some(head) => {
            if goes_out(ask, sent, &head) {
                Some(head.method)
            } else {
                None
            }
        }
    }
}

/// Whether sent is a beginning of what goes out for the head and what is behind it.
fn begins_with(ask: &[u8], sent: &[u8], head: &RequestHead) -> bool
    requires { (g : grammar.RequestHead) × RequestStands ask.now head.now g }
    ensures { (g : grammar.RequestHead) → RequestStands ask.now head.now g
        → IsTrue result ↔ IsPrefix sent.now (forwarded_request g ++ drop head.now.length ask.now) }
{
    let mut text = [0u8; MOST_TEXT];
    let n = spell_request(ask, head, &mut text);
    begins_text(&text[..n], &ask[head.length as usize..], sent)
}

/// Whether sent is a beginning of what goes out for a request of which ask is the front.
pub(crate) fn begins_out(ask: &[u8], sent: &[u8]) -> bool
    ensures { IsTrue result ↔ BeginsOut ask.now sent.now }
{
    if is_nothing(sent) {
        return true;
    }
    match look_request(ask) {
        None => false,
        Some(head) => begins_with(ask, sent, &head),
    }
}
