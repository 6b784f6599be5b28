//! How far the reads of a link in memory have come in its pieces.
ghost use Rattle.std.specs.Prelude.{◌≡◌, ℕ, ◌+◌, ◌-◌, ◌≤◌, ◌<◌, min, length, take, drop, ◌++◌, Option};
ghost use Rattle.hx_base.specs.declared.numbers.Millis.{Millis};
ghost use Rattle.hx_link.specs.Told.{most_bytes};
ghost use Rattle.hx_link.specs.Planned.{planned, has_come, end_has_come, left_of_piece};
ghost use Rattle.hx_link.specs.Places.{IsPlace, IsNext, FindsDue, moved_on};

use hx_base::{Millis, Piece, Plan};

/// The most bytes that are taken of a link.
pub const MOST_TAKEN: usize = 9_223_372_036_854_775_807;

/// Where the next byte stands.
#[derive(Clone, Copy)]
pub struct Place {
    /// How many pieces were taken whole.
    pub piece: usize,
    /// How many bytes of the next were taken.
    pub offset: usize,
    /// How many bytes of all were taken.
    pub taken: usize,
}

/// What a read finds.
#[derive(Clone, Copy)]
pub enum Due {
    Nothing,
    End,
    Bytes,
}

/// Passes the pieces that were taken whole.
pub fn pass_taken(pieces: &[Piece], at: Place) -> Place
    requires place { IsPlace pieces.now at }
    ensures place { IsPlace pieces.now result }
    ensures next { IsNext pieces.now result }
    ensures same { result.taken ≡ at.taken }
{
    let mut at = at;
    while at.piece < pieces.len() && at.offset >= pieces[at.piece].bytes.as_slice().len() {
        at.piece += 1;
        at.offset = 0;
    }
    at
}

/// What is due at the moment, where so many bytes were sent.
pub fn find_due(plan: &Plan, at: Place, sent: usize, now: Millis) -> Due
    requires place { IsPlace plan.now.pieces at }
    requires next { IsNext plan.now.pieces at }
    ensures due { FindsDue plan.now at sent now.0 result }
{
    match plan.pieces.as_slice().get(at.piece) {
        None if is_end_due(plan.end, sent, now) => Due::End,
        Some(p) if is_due(p.at, p.after, sent, now) => Due::Bytes,
        _ => Due::Nothing,
    }
}

fn is_due(at: Millis, after: u64, sent: usize, now: Millis) -> bool
    ensures due { result ≡ has_come at after now.0 sent }
{
    at.0 <= now.0 && after <= sent as u64
}

fn is_end_due(end: Option<(Millis, u64)>, sent: usize, now: Millis) -> bool
    ensures due { result ≡ end_has_come end now.0 sent }
{
    match end {
        None => false,
        Some((at, after)) => is_due(at, after, sent, now),
    }
}

/// Gives from the next piece, and from no other.
pub fn give_next(pieces: &[Piece], at: Place, into: &mut [u8]) -> usize
    requires place { IsPlace pieces.now at }
    requires next { IsNext pieces.now at }
    requires there { at.piece < length pieces.now }
    requires most { at.taken ≤ most_bytes }
    ensures count { result ≡ min (min (left_of_piece pieces.now at.taken) (length into.old))
        (most_bytes - at.taken) }
    ensures given { take (at.taken + result) (planned pieces.now)
        ≡ take at.taken (planned pieces.now) ++ take result into.new }
    ensures within { at.taken + result ≤ length (planned pieces.now) }
    ensures place { IsPlace pieces.now (moved_on at result) }
{
    let p = &pieces[at.piece];
    give(p.bytes.as_slice(), at.offset, MOST_TAKEN - at.taken, into)
}

/// Gives the bytes of one piece from the offset on, as many as fit.
fn give(bytes: &[u8], offset: usize, most: usize, into: &mut [u8]) -> usize
    requires inside { offset ≤ length bytes.now }
    ensures count { result ≡ min (min (length bytes.now - offset) (length into.old)) most }
    ensures given { take result into.new ≡ take result (drop offset bytes.now) }
{
    let n = (bytes.len() - offset).min(into.len()).min(most);
    into[..n].copy_from_slice(&bytes[offset..offset + n]);
    n
}
