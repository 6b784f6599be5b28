//! The options of Connection fields (RFC 9110, section 7.6.1).
ghost use Rattle.std.specs.Prelude.{◌≡◌, length, map, reverse, All};
ghost use Rattle.std.specs.Str.{str_eq_ignore_ascii_case};
ghost use Rattle.httparse.specs.Grammar.{skip_ows, trim_ows};
ghost use Rattle.hx_head.specs.Heads.{IsFieldIn, field_in};
ghost use Rattle.hx_head.specs.Options.{lists_option, has_option};

use crate::copy::part;
use crate::head::FieldSpan;
use httparse::is_space_or_tab;

/// Whether two names differ in letter case alone.
pub fn is_same_name(name: &[u8], other: &[u8]) -> bool
    ensures { result ≡ str_eq_ignore_ascii_case name.now other.now }
{
    name.eq_ignore_ascii_case(other)
}

fn trim_start(mut bytes: &[u8]) -> &[u8]
    ensures { result.now ≡ skip_ows bytes.now }
{
    while let [first, rest @ ..] = bytes
        && is_space_or_tab(*first)
    {
        bytes = rest;
    }
    bytes
}

fn trim_end(mut bytes: &[u8]) -> &[u8]
    ensures { result.now ≡ reverse (skip_ows (reverse bytes.now)) }
{
    while let [rest @ .., last] = bytes
        && is_space_or_tab(*last)
    {
        bytes = rest;
    }
    bytes
}

/// The bytes without the white space around them.
#[tactic(auto, unfolding(httparse::specs::Grammar::trim_ows))]
pub(crate) fn trim(bytes: &[u8]) -> &[u8]
    ensures { result.now ≡ trim_ows bytes.now }
{
    trim_end(trim_start(bytes))
}

/// Whether the option stands between the commas of a value.
fn lists_option(value: &[u8], option: &[u8]) -> bool
    ensures { result ≡ lists_option option.now value.now }
{
    let mut rest = value;
    while let Some(comma) = rest.iter().position(|b| *b == b',') {
        if is_same_name(option, trim(&rest[..comma])) {
            return true;
        }
        rest = &rest[comma + 1..];
    }
    is_same_name(option, trim(rest))
}

/// Whether some Connection field has the option. The ranges lie in the bytes.
pub fn has_option(bytes: &[u8], fields: &[FieldSpan], option: &[u8]) -> bool
    requires { All (IsFieldIn (length bytes.now)) fields.now }
    ensures { result ≡ has_option option.now (map (field_in bytes.now) fields.now) }
{
    for i in 0..fields.len() {
        if is_same_name(b"Connection", part(bytes, fields[i].name))
            && lists_option(part(bytes, fields[i].value), option)
        {
            return true;
        }
    }
    false
}
