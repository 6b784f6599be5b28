//! The length that a Content-Length gives (RFC 9112, section 6.3).
ghost use Rattle.std.specs.Prelude.{◌≡◌, ◌∷◌, [], ◌≤◌, ◌+◌, ◌<◌, ◌^◌, length, if◌then◌else◌, ◌==◌, Some, None};
ghost use Rattle.std.specs.List.{list_all, list_any};
ghost use Rattle.std.specs.Char.{is_ascii_digit};
ghost use Rattle.std.specs.Str.Parse.{digits_value};
ghost use Rattle.hx_message.specs.Body.{length_kind};

use hx_message::{BodyKind, FrameFault};

/// The greatest length of a body: 2^63 - 1.
const MOST_LENGTH: u64 = 9_223_372_036_854_775_807;

/// The most digits of a length.
const MOST_DIGITS: usize = 19;

/// The number, if there are digits alone.
fn read_digits(text: &[u8]) -> Option<u64>
    requires { length text.now ≤ 19 }
    ensures { result ≡ (if list_all is_ascii_digit text.now then Some (digits_value 10 text.now) else None) }
{
    let mut number = 0;
    for digit in text {
        if !digit.is_ascii_digit() {
            return None;
        }
        number = number * 10 + u64::from(*digit - b'0');
    }
    Some(number)
}

fn has_comma(value: &[u8]) -> bool
    ensures { result ≡ list_any (λ b. b == 44) value.now }
{
    value.iter().any(|b| *b == b',')
}

/// The kind by the value of the one Content-Length.
pub(crate) fn length_kind(value: &[u8]) -> Result<BodyKind, FrameFault>
    ensures { result ≡ length_kind (value.now ∷ []) }
{
    if has_comma(value) {
        return Err(FrameFault::SeveralLengths);
    }
    if value.is_empty() || value.len() > MOST_DIGITS {
        return Err(FrameFault::BadLength);
    }
    match read_digits(value) {
        Some(length) if length <= MOST_LENGTH => Ok(BodyKind::Length(length)),
        _ => Err(FrameFault::BadLength),
    }
}
