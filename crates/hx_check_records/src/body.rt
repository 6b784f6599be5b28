//! Whole bodies.
ghost use Rattle.std.specs.Prelude.{◌≡◌, ◌↔◌, IsTrue};
ghost use Rattle.hx_message.specs.Body.{IsBody};

use hx_frame::{Meter, MeterState};
use hx_message::BodyKind;

/// Whether the bytes are a whole body.
pub(crate) fn is_body(kind: BodyKind, bytes: &[u8]) -> bool
    ensures { IsTrue result ↔ IsBody kind bytes.now }
{
    let mut meter = Meter::new(kind);
    let fed = meter.feed(bytes);
    match fed.state {
        MeterState::Done => fed.used == bytes.len(),
        MeterState::Going => meter.at_end(),
        MeterState::Bad => false,
    }
}
