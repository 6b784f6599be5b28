//! A body in chunks, read byte by byte (RFC 9112, section 7.1).
ghost use Rattle.std.specs.Prelude.{◌≡◌, IsTrue};
ghost use Rattle.hx_message.specs.Chunked.{is_trailer_byte};
ghost use Rattle.hx_frame.specs.Chunks as machine;

use crate::state::ChunkState;
use httparse::parse_hex_digit;

/// How long a trailer section may be, without the empty line at its end.
const TRAILER_ROOM: u16 = 16_382;

/// How long an extension may be behind its first byte and sixteen digits, without the end of its line.
const EXTENSION_ROOM: u16 = 4_077;

/// The state after a byte that follows the digits of a size.
fn after_digits(size: u64, room: u8, byte: u8) -> ChunkState
    ensures { result ≡ machine.after_digits size room byte }
{
    match byte {
        b'\r' => ChunkState::SizeEnd(size),
        b';' | b' ' | b'\t' => ChunkState::Extension(size, EXTENSION_ROOM + u16::from(room)),
        _ => ChunkState::Bad,
    }
}

fn first_digit(byte: u8) -> ChunkState
    ensures { result ≡ machine.first_digit byte }
{
    match parse_hex_digit(byte) {
        Some(digit) => ChunkState::Size(digit, 15),
        None => ChunkState::Bad,
    }
}

fn in_size(size: u64, room: u8, byte: u8) -> ChunkState
    requires { IsTrue (machine.is_small (ChunkState.Size size room)) }
    ensures { result ≡ machine.in_size size room byte }
{
    match parse_hex_digit(byte) {
        Some(_) if room == 0 => ChunkState::Bad,
        Some(digit) => ChunkState::Size(size * 16 + digit, room - 1),
        None => after_digits(size, room, byte),
    }
}

fn in_extension(size: u64, room: u16, byte: u8) -> ChunkState
    ensures { result ≡ machine.in_extension size room byte }
{
    match byte {
        b'\r' => ChunkState::SizeEnd(size),
        b'\t' | 32..=126 | 128..=255 if room > 0 => ChunkState::Extension(size, room - 1),
        _ => ChunkState::Bad,
    }
}

fn after_line(size: u64) -> ChunkState
    ensures { result ≡ machine.after_line size }
{
    if size == 0 {
        ChunkState::TrailerStart(TRAILER_ROOM)
    } else {
        ChunkState::Data(size)
    }
}

fn is_trailer_byte(byte: u8) -> bool
    ensures { result ≡ is_trailer_byte byte }
{
    !matches!(byte, b'\r' | b'\n' | 0)
}

fn in_data(left: u64, byte: u8) -> ChunkState
    ensures { result ≡ machine.in_data left byte }
{
    if left > 0 {
        ChunkState::Data(left - 1)
    } else {
        expect(byte, b'\r', ChunkState::DataEnd)
    }
}

/// A line of one byte takes three bytes of the room, and each further byte takes one.
fn at_trailer(room: u16, byte: u8) -> ChunkState
    ensures { result ≡ machine.at_trailer room byte }
{
    if byte == b'\r' {
        ChunkState::LastEnd
    } else if is_trailer_byte(byte) && room >= 3 {
        ChunkState::Trailer(room - 3)
    } else {
        ChunkState::Bad
    }
}

fn in_trailer(room: u16, byte: u8) -> ChunkState
    ensures { result ≡ machine.in_trailer room byte }
{
    if byte == b'\r' {
        ChunkState::TrailerEnd(room)
    } else if is_trailer_byte(byte) && room > 0 {
        ChunkState::Trailer(room - 1)
    } else {
        ChunkState::Bad
    }
}

fn expect(byte: u8, wanted: u8, next: ChunkState) -> ChunkState
    ensures { result ≡ machine.expect byte wanted next }
{
    if byte == wanted {
        next
    } else {
        ChunkState::Bad
    }
}

impl ChunkState {
    /// The state after one more byte.
    pub(crate) fn after(self, byte: u8) -> ChunkState
        requires { IsTrue (machine.is_small self) }
        ensures step { result ≡ machine.step self byte }
        ensures small { IsTrue (machine.is_small result) }
    {
        match self {
            ChunkState::Start => first_digit(byte),
            ChunkState::Size(size, room) => in_size(size, room, byte),
            ChunkState::Extension(size, room) => in_extension(size, room, byte),
            ChunkState::SizeEnd(size) => expect(byte, b'\n', after_line(size)),
            ChunkState::Data(left) => in_data(left, byte),
            ChunkState::DataEnd => expect(byte, b'\n', ChunkState::Start),
            ChunkState::TrailerStart(room) => at_trailer(room, byte),
            ChunkState::Trailer(room) => in_trailer(room, byte),
            ChunkState::TrailerEnd(room) => expect(byte, b'\n', ChunkState::TrailerStart(room)),
            ChunkState::LastEnd => expect(byte, b'\n', ChunkState::Done),
            ChunkState::Done | ChunkState::Bad => ChunkState::Bad,
        }
    }
}
