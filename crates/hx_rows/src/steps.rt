//! What a row does at its seat, several steps at a time.
ghost use Rattle.std.specs.Prelude.{◌≡◌, ◌≢◌, None, MatchOption, MatchResult};
ghost use Rattle.hx_base.specs.declared.rules.Mode.TheVariants as mode;
ghost use Rattle.hx_pool.specs.Parking.{CanPark};
ghost use Rattle.hx_places.specs.declared.view.Hand.TheVariants.{Idle};
ghost use Rattle.hx_places.specs.Asks.{CanTake, IsInTurn};
ghost use Rattle.hx_places.specs.Seats.{history_of, IsOfBoard, IsOwn};
ghost use Rattle.hx_rows.specs.Steps.{IsAtRest, Scans, Finds, Admits, Refuses};
ghost use Rattle.hx_rows.specs.Steps.{Gets, Loses, MayRest, StaysAt, IsTakenAt, ComesBack, MatchOutcome};

use crate::stays::ROW;
use hx_base::{Face, Faced, PlaceNo, SessionNo};
use hx_places::PlaceSeat;
use hx_pool::{Found, NoPark};
use hx_resting::has_room;

/// The least own place that a look shows vacant. None: each of the 64 is taken.
fn find_vacant<V: Faced>(seat: &mut PlaceSeat<'_, V>) -> Option<PlaceNo>
    requires rest { IsAtRest seat.old }
    ensures { MatchOption result (Scans seat.old seat.new 64) (Finds seat.old seat.new) }
{
    let row = seat.thread().0;
    for number in 0..ROW {
        let place = PlaceNo { row, place: number };
        if let Found::Empty = seat.look(place) {
            return Some(place);
        }
    }
    None
}

/// The steps of a park before the claim: looks up to the least vacant place, the drain state, the
/// count.
pub(crate) fn admit<V: Faced>(seat: &mut PlaceSeat<'_, V>) -> Result<PlaceNo, NoPark>
    requires rest { IsAtRest seat.old }
    ensures { MatchResult result (Admits seat.old seat.new) (Refuses seat.old seat.new) }
{
    let Some(place) = find_vacant(seat) else {
        return Err(NoPark::RowFull);
    };
    if seat.gate() {
        return Err(NoPark::Draining);
    }
    let count = seat.up();
    if !has_room(seat.rules().max, count) {
        seat.down();
        return Err(NoPark::PoolFull(count));
    }
    Ok(place)
}

/// Takes the connection of this face at the place, if it still rests there.
pub(crate) fn take_from<V: Faced>(
    seat: &mut PlaceSeat<'_, V>,
    n: SessionNo,
    first: bool,
    place: PlaceNo,
    face: Face,
) -> Option<V>
    requires own { IsOwn seat.old place }
    requires place { IsOfBoard seat.old place }
    requires takes { CanTake seat.old n first face }
    requires turn { IsInTurn seat.old place face }
    requires idle { seat.old.view.hand ≡ Idle }
    ensures { MatchOption result (Loses seat.old seat.new place face)
        (λ v. Gets seat.old seat.new n first place face (V.shows v)) }
{
    match seat.take_at(n, first, place, face) {
        Ok(v) => {
            seat.down();
            Some(v)
        }
        Err(_) => None,
    }
}

/// What became of a value that was published.
pub(crate) enum Outcome<V> {
    /// It rests, or another took it after the drain state was read.
    Stays,
    /// The server drains, and another took it before this thread could.
    IsTaken,
    /// The server drains, and this thread took it back.
    Back(V),
}

/// Lets the value rest at the place, and takes it back where the server drains by then.
pub(crate) fn rest_at<V: Faced>(
    seat: &mut PlaceSeat<'_, V>,
    n: SessionNo,
    place: PlaceNo,
    v: V,
) -> Outcome<V>
    requires may { MayRest seat.old place }
    requires parks { CanPark (history_of seat.old None) n (V.shows v) }
    requires mode { seat.old.view.terms.rules.mode ≢ mode.Never }
    ensures { MatchOutcome result
        (StaysAt seat.old seat.new n place (V.shows v))
        (IsTakenAt seat.old seat.new n place (V.shows v))
        (λ w. ComesBack seat.old seat.new n place (V.shows v) (V.shows w)) }
{
    let face = v.face();
    let claim = seat.claim(place);
    seat.publish(claim, n, v);
    if !seat.gate() {
        return Outcome::Stays;
    }
    match take_from(seat, n, false, place, face) {
        Some(v) => Outcome::Back(v),
        None => Outcome::IsTaken,
    }
}
