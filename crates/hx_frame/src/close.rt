//! Whether a connection goes on after a message (RFC 9112, section 9.3).
ghost use Rattle.std.specs.Prelude.{◌≡◌, length, map, All};
ghost use Rattle.httparse.specs.Grammar as grammar;
ghost use Rattle.hx_message.specs.Body as message;
ghost use Rattle.hx_message.specs.Body.{has_close};
ghost use Rattle.hx_head.specs.Heads.{IsFieldIn, field_in, IsRequestAt, IsAnswerAt, IsRequestOf, IsAnswerOf};

use hx_head::{AnswerHead, FieldSpan, RequestHead, has_option};

/// Whether close is among the options of Connection.
fn has_close(bytes: &[u8], fields: &[FieldSpan]) -> bool
    requires { All (IsFieldIn (length bytes.now)) fields.now }
    ensures { result ≡ has_close (map (field_in bytes.now) fields.now) }
{
    has_option(bytes, fields, b"close")
}

/// Whether the answer lets the connection go on: it is of HTTP/1.1, and close is not among its options. A body that
/// runs to the end of the connection ends it all the same.
///
/// The first bytes are the head.
pub fn persists(bytes: &[u8], head: &AnswerHead) -> bool
    requires { IsAnswerOf bytes.now head.now }
    ensures { (g : grammar.ResponseHead) → IsAnswerAt bytes.now head.now g → result ≡ message.persists g }
{
    head.minor == 1 && !has_close(bytes, &head.fields[..head.count as usize])
}

/// Whether close is among the options of the request.
///
/// The first bytes are the head.
pub fn wants_close(bytes: &[u8], head: &RequestHead) -> bool
    requires { IsRequestOf bytes.now head.now }
    ensures { (g : grammar.RequestHead) → IsRequestAt bytes.now head.now g → result ≡ message.wants_close g }
{
    has_close(bytes, &head.fields[..head.count as usize])
}
