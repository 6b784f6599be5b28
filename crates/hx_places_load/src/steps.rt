//! What a worker does at its seat, a few steps at a time.
ghost use Rattle.std.specs.Prelude.{◌≡◌, ◌+◌, ◌-◌, ◌<◌, ◌≤◌, true, false, IfSome, IfOk, MatchOption};
ghost use Rattle.hx_base.specs.PlaceWords.{IsFace};
ghost use Rattle.hx_base.specs.declared.numbers.PlaceNo.{PlaceNo};
ghost use Rattle.hx_base.specs.declared.numbers.Face.{Face};
ghost use Rattle.hx_pool.specs.declared.entries.Found.TheVariants.{Empty};
ghost use Rattle.hx_pool.specs.Held.{Has};
ghost use Rattle.hx_places.specs.Known.{WasVacant};
ghost use Rattle.hx_places.specs.Seats.{IsOfBoard, IsOwn};
ghost use Rattle.hx_places.specs.Turns.{IsBelow};
ghost use Rattle.hx_places_load.specs.Resting.{IsAtRest, IsAdmittedTo, IsFilling, HasToRead, HasToTry};
ghost use Rattle.hx_places_load.specs.Resting.{Goes, Knows, HasFace};

use crate::card::Card;
use hx_base::{ConnId, Face, PlaceNo, SessionNo};
use hx_places::{Claim, PlaceSeat};
use hx_pool::Found;

/// The session of each thread.
pub(crate) const SESSION: SessionNo = SessionNo(1);

/// A seat opens fewer connections than this.
const OPENS: u64 = 68_719_476_735;

/// The connection that it opens, which has had no use.
pub(crate) fn open_one(seat: &mut PlaceSeat<'_, Card>) -> Option<Face>
    requires rest { IsAtRest seat.old }
    ensures rest { IsAtRest seat.new }
    ensures has { IfSome result (HasFace seat.new) }
{
    if seat.opens() >= OPENS {
        return None;
    }
    let id = seat.draw(SESSION);
    Some(Face { id, uses: 0 })
}

/// What stands at a place.
pub(crate) fn look_at(seat: &mut PlaceSeat<'_, Card>, place: PlaceNo) -> Found
    requires rest { IsAtRest seat.old }
    requires board { IsOfBoard seat.old place }
    ensures rest { IsAtRest seat.new }
    ensures goes { Goes seat.old seat.new }
    ensures vacant { result ≡ Empty → WasVacant seat.new.view.mine place }
{
    seat.look(place)
}

/// How many rest, or are on their way.
pub(crate) fn count_all(seat: &mut PlaceSeat<'_, Card>) -> u64
    requires rest { IsAtRest seat.old }
    ensures rest { IsAtRest seat.new }
    ensures goes { Goes seat.old seat.new }
{
    seat.count()
}

/// Sets whether the server drains.
pub(crate) fn set_draining(seat: &mut PlaceSeat<'_, Card>, draining: bool)
    requires rest { IsAtRest seat.old }
    ensures rest { IsAtRest seat.new }
    ensures goes { Goes seat.old seat.new }
{
    seat.set_gate(draining);
}

/// Raises the purge interval, and answers the one before.
pub(crate) fn raise_to(seat: &mut PlaceSeat<'_, Card>, k: u64) -> u64
    requires rest { IsAtRest seat.old }
    ensures rest { IsAtRest seat.new }
    ensures goes { Goes seat.old seat.new }
{
    seat.raise(k)
}

/// Whether one more may rest beside so many.
fn is_below(max: Option<u32>, count: u64) -> bool
    ensures { result ≡ true → IsBelow max count }
{
    match max {
        None => true,
        Some(max) => count < u64::from(max),
    }
}

/// Whether the server takes one more: it is ready, and counted up there is room.
fn is_admitted(seat: &mut PlaceSeat<'_, Card>) -> bool
    requires rest { IsAtRest seat.old }
    ensures shut { result ≡ false → IsAtRest seat.new }
    ensures admitted { result ≡ true → IsAdmittedTo seat.new }
    ensures goes { Goes seat.old seat.new }
    ensures knows { Knows seat.old seat.new }
{
    if seat.gate() {
        return false;
    }
    let max = seat.rules().max;
    let before = seat.up();
    if !is_below(max, before) {
        seat.down();
        return false;
    }
    true
}

/// Claims an own place that is vacant, where the server takes one more.
pub(crate) fn claim_at(seat: &mut PlaceSeat<'_, Card>, place: PlaceNo) -> Option<Claim>
    requires rest { IsAtRest seat.old }
    requires own { IsOwn seat.old place }
    requires board { IsOfBoard seat.old place }
    ensures claims { MatchOption result (IsAtRest seat.new) (λ c. IsFilling seat.new c.place) }
    ensures goes { Goes seat.old seat.new }
{
    let Found::Empty = look_at(seat, place) else {
        return None;
    };
    if !is_admitted(seat) {
        return None;
    }
    Some(seat.claim(place))
}

/// Lets the connection rest at the claimed place with this face. The seat has to read the drain state next.
pub(crate) fn publish_as(seat: &mut PlaceSeat<'_, Card>, claim: Claim, face: Face)
    requires filling { IsFilling seat.old claim.place }
    requires has { Has seat.old.view.mine (record { 0 = 1 }) face.id.0 (face.uses - 1) }
    requires uses { 1 ≤ face.uses }
    ensures { HasToRead seat.new claim.place face }
{
    seat.publish(claim, SESSION, Card { face });
}

/// Whether the server drains by now, after a park.
pub(crate) fn drains_now(seat: &mut PlaceSeat<'_, Card>) -> bool
    requires parked { (place : PlaceNo) × (face : Face) × HasToRead seat.old place face }
    ensures ready { result ≡ false → IsAtRest seat.new }
    ensures drains { (place : PlaceNo) (face : Face) → HasToRead seat.old place face
        → result ≡ true → HasToTry seat.new place face }
{
    seat.gate()
}

/// Takes back what was parked, where no other seat took it.
pub(crate) fn take_back(seat: &mut PlaceSeat<'_, Card>, place: PlaceNo, face: Face) -> Option<Face>
    requires due { HasToTry seat.old place face }
    requires face { IsFace face }
    ensures rest { IsAtRest seat.new }
    ensures has { IfSome result (HasFace seat.new) }
{
    match seat.take_at(SESSION, false, place, face) {
        Ok(card) => {
            seat.down();
            Some(card.face)
        }
        Err(_) => None,
    }
}

/// Lets the connection rest at the claimed place after one more use. Where the server drains by now the seat tries to
/// take it back, and answers the face of what it got.
fn publish_at(seat: &mut PlaceSeat<'_, Card>, claim: Claim, face: Face) -> Option<Face>
    requires filling { IsFilling seat.old claim.place }
    requires has { HasFace seat.old face }
    requires uses { face.uses + 1 < 65536 }
    ensures rest { IsAtRest seat.new }
    ensures has { IfSome result (HasFace seat.new) }
{
    let used = Face {
        id: face.id,
        uses: face.uses + 1,
    };
    let place = claim.place;
    publish_as(seat, claim, used);
    if drains_now(seat) {
        return take_back(seat, place, used);
    }
    None
}

/// Lets the connection rest at an own place, if it is vacant and the server takes one more. It answers whether it did,
/// and what the session has then.
pub(crate) fn park_at(
    seat: &mut PlaceSeat<'_, Card>,
    place: PlaceNo,
    face: Face,
) -> (bool, Option<Face>)
    requires rest { IsAtRest seat.old }
    requires own { IsOwn seat.old place }
    requires board { IsOfBoard seat.old place }
    requires has { HasFace seat.old face }
    requires uses { face.uses + 1 < 65536 }
    ensures rest { IsAtRest seat.new }
    ensures has { IfSome result.1 (HasFace seat.new) }
{
    let Some(claim) = claim_at(seat, place) else {
        return (false, Some(face));
    };
    let held = publish_at(seat, claim, face);
    (true, held)
}

/// Takes the connection that rests at the place with this face.
pub(crate) fn take_face(
    seat: &mut PlaceSeat<'_, Card>,
    place: PlaceNo,
    face: Face,
) -> Result<Face, Found>
    requires rest { IsAtRest seat.old }
    requires board { IsOfBoard seat.old place }
    requires face { IsFace face }
    ensures rest { IsAtRest seat.new }
    ensures has { IfOk result (HasFace seat.new) }
{
    match seat.take_at(SESSION, true, place, face) {
        Ok(card) => {
            seat.down();
            Ok(card.face)
        }
        Err(found) => Err(found),
    }
}

/// Closes a connection of the session.
pub(crate) fn close_one(seat: &mut PlaceSeat<'_, Card>, face: Face)
    requires rest { IsAtRest seat.old }
    requires has { HasFace seat.old face }
    ensures rest { IsAtRest seat.new }
{
    seat.note_close(SESSION, face.id);
}
