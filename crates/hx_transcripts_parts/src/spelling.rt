//! Byte texts in their one spelling.
ghost use Rattle.std.specs.Prelude.{◌≡◌, ◌<◌};
ghost use Rattle.std.specs.List.{flat_map};
ghost use Rattle.std.specs.Option.{option_map};
ghost use Rattle.hx_script_parts.specs.ByteText.{hex_digit, escaped, quoted};
ghost use Rattle.hx_transcripts_parts.specs.Faults.{Gives};
ghost use Rattle.hx_transcripts_parts.specs.Spelling.{behind_front, spelled_at};

use crate::fault::{Refusal, Rule};
use hx_script_parts::read_quoted;
use std::alloc::Global;

fn hex(d: u8) -> u8
    requires { d < 16 }
    ensures { result ≡ hex_digit d }
{
    if d < 10 { b'0' + d } else { b'a' - 10 + d }
}

// What stands behind these bytes.
fn behind<'a>(text: &'a [u8], front: &[u8]) -> Option<&'a [u8]>
    ensures { option_map (λ s. s.now) result ≡ behind_front front.now text.now }
{
    text.strip_prefix(front)
}

// What stands behind the one spelling of a byte.
#[tactic(auto, unfolding(hx_script_parts::specs::ByteText::escaped))]
fn behind_letter(text: &[u8], b: u8) -> Option<&[u8]>
    ensures { option_map (λ s. s.now) result ≡ behind_front (escaped b) text.now }
{
    if b == b'"' || b == b'\\' {
        behind(text, &[b'\\', b])
    } else if b == b'\r' {
        behind(text, b"\\r")
    } else if b == b'\n' {
        behind(text, b"\\n")
    } else if b >= 32 && b <= 126 {
        behind(text, &[b])
    } else {
        behind(text, &[b'\\', b'x', hex(b / 16), hex(b % 16)])
    }
}

// What stands behind the bytes, each in its one spelling.
fn behind_letters<'a>(text: &'a [u8], bytes: &[u8]) -> Option<&'a [u8]>
    ensures { option_map (λ s. s.now) result ≡ behind_front (flat_map escaped bytes.now) text.now }
{
    let mut rest = text;
    for b in bytes {
        match behind_letter(rest, *b) {
            Some(after) => rest = after,
            None => return None,
        }
    }
    Some(rest)
}

// What stands behind the one spelling of the byte text.
fn behind_quoted<'a>(text: &'a [u8], bytes: &[u8]) -> Option<&'a [u8]>
    ensures { option_map (λ s. s.now) result ≡ behind_front (quoted bytes.now) text.now }
{
    let Some(letters) = behind(text, b"\"") else {
        return None;
    };
    let Some(rest) = behind_letters(letters, bytes) else {
        return None;
    };
    behind(rest, b"\"")
}

/// The bytes of the byte text at the front, which must be in its one spelling, and what follows it.
pub fn spelled_front(alloc: Global, text: &[u8]) -> Result<(Vec<u8>, &[u8]), Refusal>
    ensures { Gives (λ x. (x.0.items, x.1.now)) result (spelled_at text.now) }
{
    let Some((bytes, _)) = read_quoted(alloc, text)? else {
        return Err(Refusal::Fault(Rule::BadText));
    };
    match behind_quoted(text, bytes.as_slice()) {
        None => Err(Refusal::Fault(Rule::BadText)),
        Some(rest) => Ok((bytes, rest)),
    }
}
