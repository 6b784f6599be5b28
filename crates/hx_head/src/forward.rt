//! Heads as they go out (RFC 9110, section 7.6.1; RFC 9112, sections 2.3, 3 and 4).
ghost use Rattle.std.specs.Prelude.{◌≡◌, ◌≤◌, length, All};
ghost use Rattle.hx_message.specs.Forwarded.{closing_line};
ghost use Rattle.hx_head.specs.Heads.{IsFieldIn, IsRequestOf, IsAnswerOf};
ghost use Rattle.hx_message.specs.Limits.{field_limit};
ghost use Rattle.hx_head.specs.Writes.{Puts, WritesRequest, WritesAnswer, RequestIn, AnswerIn, request_text, answer_text};

use crate::copy::part;
use crate::head::{AnswerHead, EMPTY_FIELD, FieldSpan, RequestHead};
use crate::lines::{fields_length, put, put_fields};
use crate::staying::keep_staying;
use itoa::Buffer;

/// The text has `needed` bytes, and the slice fewer. The slice is unchanged.
#[derive(Clone, Copy, Debug, PartialEq, Eq)]
pub struct NoRoom {
    pub needed: usize,
}

/// Writes a request head with these fields.
fn put_request(
    bytes: &[u8],
    head: &RequestHead,
    fields: &[FieldSpan],
    out: &mut [u8],
) -> Result<usize, NoRoom>
    requires head { RequestIn bytes.now head.now }
    requires fields { All (IsFieldIn (length bytes.now)) fields.now }
    requires few { length fields.now ≤ field_limit }
    ensures { Puts (request_text bytes.now head.now fields.now) out.old out.new result }
{
    let word = part(bytes, head.word);
    let target = part(bytes, head.target);
    let needed = word.len() + target.len() + fields_length(bytes, fields) + 14;
    if out.len() < needed {
        return Err(NoRoom { needed });
    }
    let at = put(out, 0, word);
    let at = put(out, at, b" ");
    let at = put(out, at, target);
    let at = put(out, at, b" HTTP/1.1\r\n");
    let at = put_fields(out, at, bytes, fields);
    Ok(put(out, at, b"\r\n"))
}

/// Writes the request head as it goes out at the front of `out`, and tells how long it is: its method, target and
/// fields in order, but for the fields of one connection and those that a Connection option names.
pub fn forward_request(bytes: &[u8], head: &RequestHead, out: &mut [u8]) -> Result<usize, NoRoom>
    requires { IsRequestOf bytes.now head.now }
    ensures { WritesRequest bytes.now head.now out.old out.new result }
{
    let bytes = &bytes[..head.length as usize];
    let mut kept = [EMPTY_FIELD; 100];
    let count = keep_staying(bytes, &head.fields[..head.count as usize], &mut kept);
    put_request(bytes, head, &kept[..count], out)
}

/// The line that tells of the end.
fn closing_word(closing: bool) -> &'static [u8]
    ensures word { result.now ≡ closing_line closing }
    ensures short { length result.now ≤ 19 }
{
    if closing {
        b"Connection: close\r\n"
    } else {
        &[]
    }
}

/// Writes an answer head with these fields.
fn put_answer(
    bytes: &[u8],
    head: &AnswerHead,
    fields: &[FieldSpan],
    closing: bool,
    out: &mut [u8],
) -> Result<usize, NoRoom>
    requires head { AnswerIn bytes.now head.now }
    requires fields { All (IsFieldIn (length bytes.now)) fields.now }
    requires few { length fields.now ≤ field_limit }
    ensures { Puts (answer_text bytes.now head.now fields.now closing) out.old out.new result }
{
    let mut buffer = Buffer::new();
    let status = buffer.format(head.status).as_bytes();
    let reason = part(bytes, head.reason);
    let close = closing_word(closing);
    let needed = status.len() + reason.len() + fields_length(bytes, fields) + close.len() + 14;
    if out.len() < needed {
        return Err(NoRoom { needed });
    }
    let at = put(out, 0, b"HTTP/1.1 ");
    let at = put(out, at, status);
    let at = put(out, at, b" ");
    let at = put(out, at, reason);
    let at = put(out, at, b"\r\n");
    let at = put_fields(out, at, bytes, fields);
    let at = put(out, at, close);
    Ok(put(out, at, b"\r\n"))
}

/// Writes the answer head as it goes out at the front of `out`, and tells how long it is: its status, reason and
/// fields as for a request, and where `closing` is true the line that ends the client's connection.
pub fn forward_answer(
    bytes: &[u8],
    head: &AnswerHead,
    closing: bool,
    out: &mut [u8],
) -> Result<usize, NoRoom>
    requires { IsAnswerOf bytes.now head.now }
    ensures { WritesAnswer bytes.now head.now closing out.old out.new result }
{
    let bytes = &bytes[..head.length as usize];
    let mut kept = [EMPTY_FIELD; 100];
    let count = keep_staying(bytes, &head.fields[..head.count as usize], &mut kept);
    put_answer(bytes, head, &kept[..count], closing, out)
}
