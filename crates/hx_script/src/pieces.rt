//! The pieces of lines.
ghost use Rattle.std.specs.Prelude.{◌≡◌, ◌<◌, ◌++◌, length, codes, decimal, OnOk};
ghost use Rattle.std.specs.List.{flat_map};
ghost use Rattle.hx_script_parts.specs.ByteText.{escaped, quoted, hex_digit};
ghost use Rattle.hx_script.specs.MarkLines.{who, place_text};
ghost use Rattle.hx_script.specs.RecordLines.{span_text};

use hx_base::{NoMemory, PlaceNo, SessionNo, Span, ThreadNo};
use itoa::Buffer;

/// Adds a text.
pub(crate) fn put(out: &mut Vec<u8>, text: &[u8]) -> Result<(), NoMemory>
    ensures { OnOk result (out.new.items ≡ out.old.items ++ text.now) }
{
    out.extend_from_slice(text)?;
    Ok(())
}

/// Adds a number in decimal digits.
pub(crate) fn put_number(out: &mut Vec<u8>, n: u64) -> Result<(), NoMemory>
    ensures { OnOk result (out.new.items ≡ out.old.items ++ decimal n) }
{
    let mut buffer = Buffer::new();
    out.extend_from_slice(buffer.format(n).as_bytes())?;
    Ok(())
}

pub(crate) fn put_who(out: &mut Vec<u8>, t: ThreadNo, n: SessionNo) -> Result<(), NoMemory>
    ensures { OnOk result (out.new.items ≡ out.old.items ++ who t n) }
{
    put_number(out, u64::from(t.0))?;
    put(out, b".")?;
    put_number(out, u64::from(n.0))
}

pub(crate) fn put_place(out: &mut Vec<u8>, place: PlaceNo) -> Result<(), NoMemory>
    ensures { OnOk result (out.new.items ≡ out.old.items ++ place_text place) }
{
    put_number(out, u64::from(place.row))?;
    put(out, b":")?;
    put_number(out, u64::from(place.place))
}

pub(crate) fn put_span(out: &mut Vec<u8>, span: Span) -> Result<(), NoMemory>
    ensures { OnOk result (out.new.items ≡ out.old.items ++ span_text span) }
{
    put_number(out, span.from)?;
    put(out, b"-")?;
    put_number(out, span.to)
}

fn hex(d: u8) -> u8
    requires { d < 16 }
    ensures { result ≡ hex_digit d }
{
    if d < 10 { b'0' + d } else { b'a' - 10 + d }
}

#[tactic(auto, unfolding(hx_script_parts::specs::ByteText::escaped))]
fn put_escaped(out: &mut Vec<u8>, b: u8) -> Result<(), NoMemory>
    ensures { OnOk result (out.new.items ≡ out.old.items ++ escaped b) }
{
    if b == b'"' || b == b'\\' {
        put(out, &[b'\\', b])
    } else if b == b'\r' {
        put(out, b"\\r")
    } else if b == b'\n' {
        put(out, b"\\n")
    } else if b >= 32 && b <= 126 {
        put(out, &[b])
    } else {
        put(out, &[b'\\', b'x', hex(b / 16), hex(b % 16)])
    }
}

fn put_all_escaped(out: &mut Vec<u8>, bytes: &[u8]) -> Result<(), NoMemory>
    ensures { OnOk result (out.new.items ≡ out.old.items ++ flat_map escaped bytes.now) }
{
    for b in bytes {
        put_escaped(out, *b)?;
    }
    Ok(())
}

/// Adds bytes between quotes.
pub(crate) fn put_quoted(out: &mut Vec<u8>, bytes: &[u8]) -> Result<(), NoMemory>
    ensures { OnOk result (out.new.items ≡ out.old.items ++ quoted bytes.now) }
{
    put(out, b"\"")?;
    put_all_escaped(out, bytes)?;
    put(out, b"\"")
}
