//! Looks through the rows of other threads, with a take where one is allowed.
ghost use Rattle.std.specs.Prelude.{◌≡◌, ℕ, ◌<◌, false, MatchOption};
ghost use Rattle.hx_resting.specs.Row.{fits as is_fit};
ghost use Rattle.hx_places.specs.Seats.{IsOfBoard, Stands};
ghost use Rattle.hx_rows.specs.Steps.{IsAtRest};
ghost use Rattle.hx_takeover.specs.Scans.{Misses, Takes, Passes, PassesRow, PassesRows};
ghost use Rattle.hx_takeover.specs.Scans.{TakesInList, TakesInRow, TakesInRows};

use hx_base::{Faced, Mode, PlaceNo, SessionNo};
use hx_places::PlaceSeat;
use hx_pool::{Found, allowed};
use hx_resting::fits;

/// How many places a row has.
const ROW: u8 = 64;

/// A connection that was taken, and the place where it rested.
#[derive(Drop)]
pub struct Over<V> {
    pub place: PlaceNo,
    pub v: V,
}

/// Some use count is allowed to the request in the list that is meant.
fn allows_in(mode: Mode, first: bool, safe: bool) -> bool
    ensures { result ≡ false → (u : ℕ) → is_fit mode first safe u ≡ false }
{
    allowed(mode, first, if safe { 2 } else { 1 })
}

/// Looks at the place, and takes what rests there where the request may take it and it is in the
/// list that is meant. Another may win the take.
fn try_place<V: Faced>(
    seat: &mut PlaceSeat<'_, V>,
    n: SessionNo,
    first: bool,
    safe: bool,
    place: PlaceNo,
) -> Option<V>
    requires rest { IsAtRest seat.old }
    requires place { IsOfBoard seat.old place }
    ensures answer { MatchOption result
        (Misses seat.old seat.new first safe place)
        (λ v. Takes seat.old seat.new n first safe place (V.shows v)) }
    ensures rest { IsAtRest seat.new }
{
    let Found::Resting(face) = seat.look(place) else {
        return None;
    };
    if !fits(seat.rules().mode, first, safe, face.uses) {
        return None;
    }
    match seat.take_at(n, first, place, face) {
        Ok(v) => {
            seat.down();
            Some(v)
        }
        Err(_) => None,
    }
}

/// Goes through one list of a row, by rising place number.
fn scan_list<V: Faced>(
    seat: &mut PlaceSeat<'_, V>,
    n: SessionNo,
    first: bool,
    safe: bool,
    row: u8,
) -> Option<Over<V>>
    requires stands { Stands seat.old.view }
    requires rest { IsAtRest seat.old }
    requires row { row < seat.old.view.terms.threads }
    ensures answer { MatchOption result
        (Passes seat.old seat.new first safe row 64)
        (λ o. TakesInList seat.old seat.new n first safe row o.place (V.shows o.v)) }
    ensures rest { IsAtRest seat.new }
{
    for number in 0..ROW {
        let place = PlaceNo { row, place: number };
        if let Some(v) = try_place(seat, n, first, safe, place) {
            return Some(Over { place, v });
        }
    }
    None
}

/// Goes through a row: first the list that the request prefers, then the other. A first request
/// prefers the safe list, a later one the idle list. A list without anything allowed is skipped.
fn scan_row<V: Faced>(
    seat: &mut PlaceSeat<'_, V>,
    n: SessionNo,
    first: bool,
    row: u8,
) -> Option<Over<V>>
    requires stands { Stands seat.old.view }
    requires rest { IsAtRest seat.old }
    requires row { row < seat.old.view.terms.threads }
    ensures answer { MatchOption result
        (PassesRow seat.old seat.new first row)
        (λ o. TakesInRow seat.old seat.new n first row o.place (V.shows o.v)) }
    ensures rest { IsAtRest seat.new }
{
    if let Some(over) = scan_list(seat, n, first, first, row) {
        return Some(over);
    }
    if !allows_in(seat.rules().mode, first, !first) {
        return None;
    }
    scan_list(seat, n, first, !first, row)
}

/// Goes through the rows of the other threads, from the one after `own` on, with wrap.
pub(crate) fn scan_rows<V: Faced>(
    seat: &mut PlaceSeat<'_, V>,
    n: SessionNo,
    first: bool,
    own: u8,
) -> Option<Over<V>>
    requires stands { Stands seat.old.view }
    requires rest { IsAtRest seat.old }
    requires own { own ≡ seat.old.view.thread.0 }
    ensures answer { MatchOption result
        (PassesRows seat.old seat.new first seat.old.view.terms.threads)
        (λ o. TakesInRows seat.old seat.new n first o.place (V.shows o.v)) }
    ensures rest { IsAtRest seat.new }
{
    let threads = seat.threads();
    for step in 1..threads {
        let row = (own + step) % threads;
        if let Some(over) = scan_row(seat, n, first, row) {
            return Some(over);
        }
    }
    None
}
