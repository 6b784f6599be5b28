//! The next request that was sent on a link.
ghost use Rattle.std.specs.Prelude.{IfOk, IfSome};
ghost use Rattle.hx_drill_parts.specs.Mirrors.{IsHeard};

use crate::ask::Ask;
use crate::text::forwarded;
use hx_base::NoMemory;
use std::alloc::Global;

/// The greatest length of a body.
const MOST_SIZE: u32 = 999;

/// A request that was heard whole.
#[derive(Clone, Copy)]
pub(crate) struct Heard {
    pub ask: Ask,
    /// How many bytes it has.
    pub length: usize,
}

/// The number with one decimal digit more.
fn with_digit(number: u32, byte: u8) -> u32 {
    number
        .saturating_mul(10)
        .saturating_add(byte.saturating_sub(b'0') as u32)
}

/// What the target at the front of the bytes asks for, if it is one. The bytes behind it aren't looked at.
fn read_ask(bytes: &[u8]) -> Option<Ask> {
    let rest = bytes.strip_prefix(b"GET /")?;
    let mut ask = Ask {
        session: 0,
        number: 0,
        size: 0,
    };
    let mut slashes = 0u8;
    for byte in rest {
        match *byte {
            b'/' => slashes = slashes.saturating_add(1),
            b' ' => {
                return if ask.size <= MOST_SIZE {
                    Some(ask)
                } else {
                    None
                };
            }
            digit if slashes == 0 => ask.session = with_digit(ask.session, digit),
            digit if slashes == 1 => ask.number = with_digit(ask.number, digit),
            digit => ask.size = with_digit(ask.size, digit),
        }
    }
    None
}

/// The request of the load that stands whole at the front of the bytes. None is answered too where none was found.
pub(crate) fn next_request(alloc: Global, bytes: &[u8]) -> Result<Option<Heard>, NoMemory>
    ensures { IfOk result (λ o. IfSome o (λ h. IsHeard bytes.now h.ask h.length)) }
{
    let Some(ask) = read_ask(bytes) else {
        return Ok(None);
    };
    let text = forwarded(alloc, &ask)?;
    if !bytes.starts_with(text.as_slice()) {
        return Ok(None);
    }
    Ok(Some(Heard {
        ask,
        length: text.len(),
    }))
}
