//! Bodies: they pass from pipe to pipe byte for byte.
ghost use Rattle.std.specs.Prelude.{◌≡◌, ◌≤◌, ◌++◌, ◌-◌, ℕ, List, length, take, drop, min};
ghost use Rattle.hx_message.specs.declared.BodyKind.{BodyKind};
ghost use Rattle.hx_link.specs.Pipes.{pipe};
ghost use Rattle.hx_frame.specs.Meters.{HasUsed, FeedSays, state_of};
ghost use Rattle.hx_session_parts.specs.Bodies.{piece_at};

use hx_frame::{Fed, Meter};
use hx_link::Pipe;

/// The first n bytes, or all.
fn at_most(bytes: &[u8], n: usize) -> &[u8]
    ensures { result.now ≡ take n bytes.now }
{
    &bytes[..n.min(bytes.len())]
}

/// Feeds the bytes of a body that fit into the pipe, and moves those that belong to it.
fn feed_front(meter: &mut Meter, bytes: &[u8], to: &mut Pipe) -> Fed
    ensures within { result.used ≤ length bytes.now }
    ensures to { to.new ≡ pipe (to.old.bytes ++ take result.used bytes.now) to.old.capacity }
    ensures state { result.state ≡ state_of meter.new }
    ensures used { (kind : BodyKind) (before : List ℕ) → HasUsed kind before meter.old
        → HasUsed kind (before ++ take result.used bytes.now) meter.new }
    ensures says { (kind : BodyKind) (before : List ℕ) → HasUsed kind before meter.old
        → FeedSays kind (state_of meter.old) result.state before (take (to.old.capacity - length to.old.bytes) bytes.now) result.used }
{
    let piece = at_most(bytes, to.room());
    let fed = meter.feed(piece);
    to.fill(&piece[..fed.used]);
    fed
}

/// Moves the bytes of a body that are at hand and fit, up to its end or to the first byte after which no body
/// follows.
pub fn pass_body(meter: &mut Meter, from: &mut Pipe, to: &mut Pipe) -> Fed
    ensures within { result.used ≤ length from.old.bytes }
    ensures from { from.new ≡ pipe (drop result.used from.old.bytes) from.old.capacity }
    ensures to { to.new ≡ pipe (to.old.bytes ++ take result.used from.old.bytes) to.old.capacity }
    ensures state { result.state ≡ state_of meter.new }
    ensures used { (kind : BodyKind) (before : List ℕ) → HasUsed kind before meter.old
        → HasUsed kind (before ++ take result.used from.old.bytes) meter.new }
    ensures says { (kind : BodyKind) (before : List ℕ) → HasUsed kind before meter.old
        → FeedSays kind (state_of meter.old) result.state before (piece_at from.old to.old) result.used }
{
    let fed = feed_front(meter, from.whole(), to);
    from.drop_front(fed.used);
    fed
}
