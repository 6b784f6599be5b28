//! How the end of a body is found, by its head (RFC 9112, section 6.3).
ghost use Rattle.std.specs.Prelude.{◌≡◌, ◌==◌, ◌&&◌, nat_lt, ℕ, List, Ok, length};
ghost use Rattle.httparse.specs.Grammar as grammar;
ghost use Rattle.hx_message.specs.Fields.{NameAndValue};
ghost use Rattle.hx_message.specs.Body as message;
ghost use Rattle.hx_message.specs.Body.{kind_of_fields, request_kind, answer_kind};
ghost use Rattle.hx_head.specs.Heads.{IsRequestAt, IsAnswerAt, IsRequestOf, IsAnswerOf};
ghost use Rattle.hx_frame.specs.Framing.{IsFound, AreFound};

use crate::fields::{Found, FramingFields, framing_fields};
use crate::length::length_kind;
use hx_head::{AnswerHead, RequestHead, is_same_name, part};
use hx_message::{BodyKind, FrameFault, MethodKind};

/// The kind by the Content-Length fields.
fn kind_by_length(bytes: &[u8], found: Found) -> Result<BodyKind, FrameFault>
    requires { (values : List (List ℕ)) × IsFound bytes.now values found }
    ensures { (values : List (List ℕ)) → IsFound bytes.now values found
        → result ≡ message.length_kind values }
{
    match found {
        Found::Absent => Ok(BodyKind::Nothing),
        Found::Once(value) => length_kind(part(bytes, value)),
        Found::Several => Err(FrameFault::SeveralLengths),
    }
}

/// The kind by the fields that frame a message, whatever its host.
fn kind_by_fields(bytes: &[u8], found: FramingFields) -> Result<BodyKind, FrameFault>
    requires { (fields : List NameAndValue) × AreFound bytes.now fields found }
    ensures { (fields : List NameAndValue) → AreFound bytes.now fields found
        → result ≡ kind_of_fields fields }
{
    match found.coding {
        Found::Absent => kind_by_length(bytes, found.length),
        Found::Several => Err(FrameFault::UnknownCoding),
        Found::Once(value) => {
            if !is_same_name(b"chunked", part(bytes, value)) {
                return Err(FrameFault::UnknownCoding);
            }
            match found.length {
                Found::Absent => Ok(BodyKind::Chunked),
                Found::Once(_) | Found::Several => Err(FrameFault::BothLengths),
            }
        }
    }
}

fn is_once(found: Found) -> bool
    ensures { (bytes : List ℕ) (values : List (List ℕ)) → IsFound bytes values found
        → result ≡ (length values == 1) }
{
    matches!(found, Found::Once(_))
}

/// How the end of the request's body is found. The faults are tested in the order UnknownCoding, BothLengths,
/// SeveralLengths, BadLength, BadHost.
///
/// The first bytes are the head.
pub fn body_of_request(bytes: &[u8], head: &RequestHead) -> Result<BodyKind, FrameFault>
    requires { IsRequestOf bytes.now head.now }
    ensures { (g : grammar.RequestHead) → IsRequestAt bytes.now head.now g
        → result ≡ request_kind g }
{
    let found = framing_fields(bytes, &head.fields[..head.count as usize]);
    let kind = kind_by_fields(bytes, found)?;
    if is_once(found.host) {
        Ok(kind)
    } else {
        Err(FrameFault::BadHost)
    }
}

fn is_bodiless(method: MethodKind, status: u16) -> bool
    ensures { result ≡ message.is_bodiless method status }
{
    method == MethodKind::Head || matches!(status, 100..=199 | 204 | 304)
}

/// Whether an answer has a coding, though its version knows none (RFC 9112, section 6.1).
fn has_coding_of_old(minor: u8, coding: Found) -> bool
    ensures { (bytes : List ℕ) (values : List (List ℕ)) → IsFound bytes values coding
        → result ≡ (minor == 0 && nat_lt 0 (length values)) }
{
    minor == 0 && !matches!(coding, Found::Absent)
}

fn or_to_end(kind: BodyKind) -> BodyKind
    ensures { Ok result ≡ message.or_to_end (Ok kind) }
{
    match kind {
        BodyKind::Nothing => BodyKind::ToEnd,
        BodyKind::Length(_) | BodyKind::Chunked | BodyKind::ToEnd => kind,
    }
}

/// How the end of the body is found in an answer to a request of that method. An answer to HEAD and one with the
/// status 1xx, 204 or 304 have none, whatever the fields say. The faults are tested in the order UnknownCoding,
/// BothLengths, SeveralLengths, BadLength.
///
/// The first bytes are the head.
pub fn body_of_answer(
    method: MethodKind,
    bytes: &[u8],
    head: &AnswerHead,
) -> Result<BodyKind, FrameFault>
    requires { IsAnswerOf bytes.now head.now }
    ensures { (g : grammar.ResponseHead) → IsAnswerAt bytes.now head.now g
        → result ≡ answer_kind method g }
{
    if is_bodiless(method, head.status) {
        return Ok(BodyKind::Nothing);
    }
    let found = framing_fields(bytes, &head.fields[..head.count as usize]);
    if has_coding_of_old(head.minor, found.coding) {
        return Err(FrameFault::UnknownCoding);
    }
    Ok(or_to_end(kind_by_fields(bytes, found)?))
}
