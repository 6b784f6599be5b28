//! Looks through all rows, with a take where something rests.
ghost use Rattle.std.specs.Prelude.{◌*◌, ◌≤◌, MatchOption};
ghost use Rattle.hx_places.specs.Seats.{IsOfBoard, Stands};
ghost use Rattle.hx_rows.specs.Steps.{IsAtRest};
ghost use Rattle.hx_purge.specs.Sweeps.{Misses, Takes, PassesTo, TakesNext};

use hx_base::{Faced, PlaceNo, SessionNo};
use hx_places::PlaceSeat;
use hx_pool::Found;
use hx_resting::{ROW, place_at};

/// The session number under which a purge or a drain takes.
pub(crate) const CARETAKER: SessionNo = SessionNo(0);

/// A connection that was taken, its place, and how many places come before that in the order of the
/// thread.
#[derive(Drop)]
pub(crate) struct Swept<V> {
    pub(crate) at: u16,
    pub(crate) place: PlaceNo,
    pub(crate) v: V,
}

/// Looks at the place, and takes what rests there. Another may win the take.
fn try_place<V: Faced>(seat: &mut PlaceSeat<'_, V>, place: PlaceNo) -> Option<V>
    requires rest { IsAtRest seat.old }
    requires place { IsOfBoard seat.old place }
    ensures answer { MatchOption result
        (Misses seat.old seat.new place)
        (λ v. Takes seat.old seat.new place (V.shows v)) }
    ensures rest { IsAtRest seat.new }
{
    let Found::Resting(face) = seat.look(place) else {
        return None;
    };
    match seat.take_at(CARETAKER, false, place, face) {
        Ok(v) => {
            seat.down();
            Some(v)
        }
        Err(_) => None,
    }
}

/// Goes through the places in the order of the thread, from one on, and takes the first connection
/// that it can.
pub(crate) fn sweep<V: Faced>(seat: &mut PlaceSeat<'_, V>, from: u16) -> Option<Swept<V>>
    requires stands { Stands seat.old.view }
    requires rest { IsAtRest seat.old }
    requires from { from ≤ 64 * seat.old.view.terms.threads }
    ensures answer { MatchOption result
        (PassesTo seat.old seat.new from (64 * seat.old.view.terms.threads))
        (λ s. TakesNext seat.old seat.new from s.at s.place (V.shows s.v)) }
    ensures rest { IsAtRest seat.new }
{
    let t = seat.thread();
    let threads = seat.threads();
    for at in from..ROW * threads as u16 {
        let place = place_at(t, threads, at);
        if let Some(v) = try_place(seat, place) {
            return Some(Swept { at, place, v });
        }
    }
    None
}
