//! Reading a request head.
ghost use Rattle.std.specs.Prelude.{◌≡◌, ◌≤◌, ◌<◌, List, ℕ, length, take};
ghost use Rattle.hx_head.specs.Causes.{RequestCause, RefusesOld};
ghost use Rattle.hx_head.specs.Heads.{IsRequestOf};
ghost use Rattle.hx_message.specs.Limits.{head_limit};
ghost use Rattle.httparse.specs.Spans.{IsRequestWithin};
ghost use Rattle.hx_head.specs.Reads.{front, IfWhole, FindsRequest, IsSameRequest};
ghost use Rattle.hx_message.specs.Body.{kind_of_method};

use crate::copy::{fields_from, span_from};
use crate::head::{HEAD_LIMIT, HeadRead, RequestHead};
use crate::refusal::Refusal;
use httparse::spans::{EMPTY_HEADER_SPAN, HeaderSpan, RequestSpans, parse_request};
use httparse::{Error, Status};
use hx_message::MethodKind;

/// The first bytes, at most 16,384.
pub(crate) fn front_of(bytes: &[u8]) -> &[u8]
    ensures front { result.now ≡ front bytes.now }
    ensures short { length result.now ≤ head_limit }
{
    if bytes.len() < HEAD_LIMIT {
        bytes
    } else {
        &bytes[..HEAD_LIMIT]
    }
}

fn method_kind(word: &[u8]) -> MethodKind
    ensures { result ≡ kind_of_method word.now }
{
    if word == b"HEAD".as_slice() {
        MethodKind::Head
    } else if word == b"CONNECT".as_slice() {
        MethodKind::Connect
    } else {
        MethodKind::Other
    }
}

/// The head by ranges of all the bytes.
fn request_from(bytes: &[u8], spans: &[HeaderSpan; 100], head: RequestSpans) -> RequestHead
    requires within { IsRequestWithin (front bytes.now) spans.now head }
    requires version { head.version ≡ 1 }
    ensures { IsSameRequest bytes.now spans.now head result }
{
    let front = front_of(bytes);
    RequestHead {
        method: method_kind(head.method.of(front)),
        word: span_from(head.method),
        target: span_from(head.path),
        fields: fields_from(spans),
        count: head.headers as u8,
        length: head.len as u32,
    }
}

/// Reads the head of a request of HTTP/1.1 at the front of the bytes, of which it looks at the first 16,384
/// (RFC 9112, sections 2, 3 and 5).
pub fn read_request(bytes: &[u8]) -> HeadRead<RequestHead>
    ensures whole { IfWhole result (IsRequestOf bytes.now) }
    ensures found { FindsRequest bytes.now result }
    ensures cause { RequestCause bytes.now result }
    ensures version { RefusesOld bytes.now result }
{
    let mut spans = [EMPTY_HEADER_SPAN; 100];
    match parse_request(front_of(bytes), &mut spans) {
        Ok(Status::Complete(head)) => {
            if head.version == 1 {
                HeadRead::Whole(request_from(bytes, &spans, head))
            } else {
                HeadRead::Refused(Refusal::Version.code())
            }
        }
        Ok(Status::Partial) => {
            if bytes.len() < HEAD_LIMIT {
                HeadRead::More
            } else {
                HeadRead::Refused(Refusal::TooLong.code())
            }
        }
        Err(Error::TooManyHeaders) => HeadRead::Refused(Refusal::TooManyFields.code()),
        Err(_) => HeadRead::Refused(Refusal::NotAHead.code()),
    }
}
