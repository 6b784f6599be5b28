//! What a worker does at a whole seat of any board.
ghost use Rattle.std.specs.Prelude.{◌≡◌, ◌≢◌};
ghost use Rattle.hx_pool.specs.Held.{Has};

use crate::card::Card;
use hx_base::{Face, Millis, SessionNo};
use hx_pool::{NoneOver, Seat};

/// The session number under which a purge or a drain takes.
const CARETAKER: SessionNo = SessionNo(0);

/// Opens a connection and parks it after its first use. One that is refused is closed.
pub(crate) fn park_new<S: Seat<Card>>(seat: &mut S, n: SessionNo)
    requires server { (S.history seat.old).about.server ≡ record { 0 = 0 } }
    requires session { n.0 ≢ 0 }
    ensures { (S.history seat.new).about ≡ (S.history seat.old).about }
{
    let Ok(id) = seat.open_new(n) else {
        return;
    };
    let face = Face { id, uses: 1 };
    match seat.park(n, Card { face }) {
        Ok(_) => {}
        Err(_) => seat.close(n, id),
    }
}

/// Parks a connection after one more use. One that is refused is closed.
fn park_again<S: Seat<Card>>(seat: &mut S, n: SessionNo, face: Face)
    requires server { (S.history seat.old).about.server ≡ record { 0 = 0 } }
    requires session { n.0 ≢ 0 }
    requires has { Has (S.history seat.old).mine n face.id.0 face.uses }
    ensures { (S.history seat.new).about ≡ (S.history seat.old).about }
{
    let id = face.id;
    if face.uses == u16::MAX {
        seat.close(n, id);
        return;
    }
    let used = Face {
        id,
        uses: face.uses + 1,
    };
    match seat.park(n, Card { face: used }) {
        Ok(_) => {}
        Err(_) => seat.close(n, id),
    }
}

/// Takes a connection over and parks it after one more use.
pub(crate) fn use_other<S: Seat<Card>>(seat: &mut S, n: SessionNo, first: bool)
    requires server { (S.history seat.old).about.server ≡ record { 0 = 0 } }
    requires session { n.0 ≢ 0 }
    ensures { (S.history seat.new).about ≡ (S.history seat.old).about }
{
    let Ok(card) = seat.take_over(n, first) else {
        return;
    };
    park_again(seat, n, card.face);
}

/// Takes a connection of the own row and parks it after one more use.
pub(crate) fn use_own<S: Seat<Card>>(seat: &mut S, n: SessionNo, first: bool)
    requires server { (S.history seat.old).about.server ≡ record { 0 = 0 } }
    requires session { n.0 ≢ 0 }
    ensures { (S.history seat.new).about ≡ (S.history seat.old).about }
{
    let Some(card) = seat.take_own(n, first) else {
        return;
    };
    park_again(seat, n, card.face);
}

/// Takes what the drain finds next, and closes it. It answers whether there was something.
pub(crate) fn drain_one<S: Seat<Card>>(seat: &mut S) -> bool
    ensures { (S.history seat.new).about ≡ (S.history seat.old).about }
{
    let Some(card) = seat.drain_next() else {
        return false;
    };
    seat.close(CARETAKER, card.face.id);
    true
}

/// Closes what the purge finds at this moment, if a new interval has begun.
pub(crate) fn purge_at<S: Seat<Card>>(seat: &mut S, now: Millis)
    ensures { (S.history seat.new).about ≡ (S.history seat.old).about }
{
    let Some(mut quota) = seat.due(now) else {
        return;
    };
    for _ in 0..1024u32 {
        let Some(card) = seat.purge_next(&mut quota) else {
            return;
        };
        seat.close(CARETAKER, card.face.id);
    }
}

/// How many rest, where too few do for a takeover.
pub(crate) fn count_below<S: Seat<Card>>(seat: &mut S, n: SessionNo) -> Option<u64>
    requires session { n.0 ≢ 0 }
{
    match seat.take_over(n, true) {
        Err(NoneOver::BelowLow(count)) => Some(count),
        _ => None,
    }
}
