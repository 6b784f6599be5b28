//! The fields on which the framing rests.
ghost use Rattle.std.specs.Prelude.{◌≡◌, ◌∷◌, ◌++◌, [], ℕ, List, length, map, All};
ghost use Rattle.hx_message.specs.Fields.{values_of};
ghost use Rattle.hx_head.specs.Heads.{IsFieldIn, field_in};
ghost use Rattle.hx_frame.specs.Framing.{IsFound, AddsFound, AreFound};

use hx_base::Span;
use hx_head::{FieldSpan, is_same_name, part};

/// The fields of one name.
#[derive(Clone, Copy)]
pub(crate) enum Found {
    Absent,
    /// One, with the range of its value.
    Once(Span),
    Several,
}

/// The fields of the names that frame a message.
#[derive(Clone, Copy)]
pub(crate) struct FramingFields {
    pub coding: Found,
    pub length: Found,
    pub host: Found,
}

fn one_more(found: Found, value: Span) -> Found
    ensures { AddsFound found value result }
{
    match found {
        Found::Absent => Found::Once(value),
        Found::Once(_) | Found::Several => Found::Several,
    }
}

/// What is found with one more field.
fn with_field(found: Found, bytes: &[u8], field: FieldSpan, name: &[u8]) -> Found
    requires { IsFieldIn (length bytes.now) field }
    ensures { (values : List (List ℕ)) → IsFound bytes.now values found
        → IsFound bytes.now (values ++ values_of name.now (field_in bytes.now field ∷ [])) result }
{
    if is_same_name(name, part(bytes, field.name)) {
        one_more(found, field.value)
    } else {
        found
    }
}

/// Finds the fields that frame a message.
pub(crate) fn framing_fields(bytes: &[u8], fields: &[FieldSpan]) -> FramingFields
    requires { All (IsFieldIn (length bytes.now)) fields.now }
    ensures { AreFound bytes.now (map (field_in bytes.now) fields.now) result }
{
    let mut found = FramingFields {
        coding: Found::Absent,
        length: Found::Absent,
        host: Found::Absent,
    };
    for i in 0..fields.len() {
        let field = fields[i];
        found = FramingFields {
            coding: with_field(found.coding, bytes, field, b"Transfer-Encoding"),
            length: with_field(found.length, bytes, field, b"Content-Length"),
            host: with_field(found.host, bytes, field, b"Host"),
        };
    }
    found
}
