//! Reading an answer head.
ghost use Rattle.std.specs.Prelude.{◌≡◌, ◌≤◌};
ghost use Rattle.hx_head.specs.Causes.{AnswerCause, RefusesLow};
ghost use Rattle.hx_head.specs.Heads.{IsAnswerOf};
ghost use Rattle.hx_head.specs.Reads.{front, IfWhole, FindsAnswer, IsSameAnswer};
ghost use Rattle.httparse.specs.Spans.{IsResponseWithin};

use crate::copy::{fields_from, span_from};
use crate::head::{AnswerHead, HEAD_LIMIT, HeadRead};
use crate::refusal::Refusal;
use crate::request::front_of;
use httparse::spans::{EMPTY_HEADER_SPAN, HeaderSpan, ResponseSpans, parse_response};
use httparse::{Error, Status};

/// The head by ranges of all the bytes.
fn answer_from(bytes: &[u8], spans: &[HeaderSpan; 100], head: ResponseSpans) -> AnswerHead
    requires within { IsResponseWithin (front bytes.now) spans.now head }
    requires status { 100 ≤ head.code }
    ensures { IsSameAnswer bytes.now spans.now head result }
{
    AnswerHead {
        minor: head.version,
        status: head.code,
        reason: span_from(head.reason),
        fields: fields_from(spans),
        count: head.headers as u8,
        length: head.len as u32,
    }
}

/// Reads the head of an answer of HTTP/1.0 or 1.1 at the front of the bytes, of which it looks at the first 16,384
/// (RFC 9112, sections 2, 4 and 5).
pub fn read_answer(bytes: &[u8]) -> HeadRead<AnswerHead>
    ensures whole { IfWhole result (IsAnswerOf bytes.now) }
    ensures found { FindsAnswer bytes.now result }
    ensures cause { AnswerCause bytes.now result }
    ensures status { RefusesLow bytes.now result }
{
    let mut spans = [EMPTY_HEADER_SPAN; 100];
    match parse_response(front_of(bytes), &mut spans) {
        Ok(Status::Complete(head)) => {
            if head.code >= 100 {
                HeadRead::Whole(answer_from(bytes, &spans, head))
            } else {
                HeadRead::Refused(Refusal::Status.code())
            }
        }
        Ok(Status::Partial) => {
            if bytes.len() < HEAD_LIMIT {
                HeadRead::More
            } else {
                HeadRead::Refused(Refusal::TooLong.code())
            }
        }
        Err(Error::TooManyHeaders) => HeadRead::Refused(Refusal::TooManyFields.code()),
        Err(_) => HeadRead::Refused(Refusal::NotAHead.code()),
    }
}
