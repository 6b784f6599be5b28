//! Pieces of a text, written one behind the other.
ghost use Rattle.std.specs.Prelude.{◌≡◌, ◌+◌, ◌*◌, ◌≤◌, ◌<◌, ◌^◌, length, All};
ghost use Rattle.hx_message.specs.Forwarded.{field_line};
ghost use Rattle.hx_head.specs.Heads.{IsFieldIn, field_in};
ghost use Rattle.hx_head.specs.Writes.{AddsPiece, lines_of};

use crate::copy::part;
use crate::head::FieldSpan;

/// Writes a piece, and tells where the next one goes.
pub(crate) fn put(out: &mut [u8], at: usize, piece: &[u8]) -> usize
    requires { at + length piece.now ≤ length out.old }
    ensures next { result ≡ at + length piece.now }
    ensures piece { AddsPiece piece.now out.old at out.new result }
{
    let end = at + piece.len();
    out[at..end].copy_from_slice(piece);
    end
}

/// Writes the line of a field.
fn put_field(out: &mut [u8], at: usize, name: &[u8], value: &[u8]) -> usize
    requires { at + length (field_line (name.now, value.now)) ≤ length out.old }
    ensures next { result ≡ at + length (field_line (name.now, value.now)) }
    ensures piece { AddsPiece (field_line (name.now, value.now)) out.old at out.new result }
{
    let at = put(out, at, name);
    let at = put(out, at, b": ");
    let at = put(out, at, value);
    put(out, at, b"\r\n")
}

/// How long the line of a field is.
fn field_length(bytes: &[u8], field: FieldSpan) -> usize
    requires within { IsFieldIn (length bytes.now) field }
    requires small { length bytes.now < 2 ^ 32 }
    ensures length { result ≡ length (field_line (field_in bytes.now field)) }
    ensures small { result < 2 ^ 34 }
{
    part(bytes, field.name).len() + part(bytes, field.value).len() + 4
}

/// How long the lines of all fields are.
pub(crate) fn fields_length(bytes: &[u8], fields: &[FieldSpan]) -> usize
    requires within { All (IsFieldIn (length bytes.now)) fields.now }
    requires small { length bytes.now < 2 ^ 32 }
    requires few { length fields.now ≤ 100 }
    ensures length { result ≡ length (lines_of bytes.now fields.now) }
    ensures small { result ≤ 100 * 2 ^ 34 }
{
    let mut total = 0;
    for i in 0..fields.len() {
        total += field_length(bytes, fields[i]);
    }
    total
}

/// Writes the lines of all fields.
pub(crate) fn put_fields(out: &mut [u8], start: usize, bytes: &[u8], fields: &[FieldSpan]) -> usize
    requires within { All (IsFieldIn (length bytes.now)) fields.now }
    requires room { start + length (lines_of bytes.now fields.now) ≤ length out.old }
    ensures next { result ≡ start + length (lines_of bytes.now fields.now) }
    ensures piece { AddsPiece (lines_of bytes.now fields.now) out.old start out.new result }
{
    let mut at = start;
    for i in 0..fields.len() {
        let field = fields[i];
        at = put_field(out, at, part(bytes, field.name), part(bytes, field.value));
    }
    at
}
