//! A seat, and the row of its thread.
ghost use Rattle.std.specs.Prelude.{◌≡◌, ◌≢◌, ℕ, Option, None, IfErr, MatchOption, MatchResult};
ghost use Rattle.hx_pool.specs.SeatView.{Grows};
ghost use Rattle.hx_pool.specs.Opening.{HasConn};
ghost use Rattle.hx_pool.specs.Parking.{CanPark, Parks, RefusesPark};
ghost use Rattle.hx_pool.specs.Taking.{TakesOwn, TakesNoneOwn};
ghost use Rattle.hx_places.specs.Seats.{history_of};
ghost use Rattle.hx_rows.specs.Row.{IsRowOf};
ghost use Rattle.hx_rows.specs.Steps.{IsAtRest};

use hx_base::{Faced, PlaceNo, SessionNo};
use hx_places::PlaceSeat;
use hx_pool::Unparked;
use hx_rows::Row;

/// A thread's seat, and what it parked.
#[derive(Drop)]
pub(crate) struct OwnSeat<'a, V: Faced> {
    pub(crate) seat: PlaceSeat<'a, V>,
    pub(crate) row: Row,
}

impl<'a, V: Faced> OwnSeat<'a, V> {
    pub(crate) fn park(&mut self, n: SessionNo, v: V) -> Result<PlaceNo, Unparked<V>>
        requires parks { CanPark (history_of self.old.seat None) n (V.shows v) }
        requires row { IsRowOf self.old.row.stays self.old.seat }
        requires rest { IsAtRest self.old.seat }
        ensures answer { (passed : Option ℕ) → MatchResult result
            (λ place. Parks (history_of self.old.seat passed) (history_of self.new.seat passed)
            n place (V.shows v))
            (λ u. RefusesPark (history_of self.old.seat passed)
            (history_of self.new.seat passed) n (V.shows v) u.why) }
        ensures back { IfErr result (λ u. V.shows u.v ≡ V.shows v) }
        ensures still { IfErr result
            (λ u. HasConn (history_of self.new.seat None) n (V.shows v).face.id) }
        ensures grows { (passed : Option ℕ) → Grows (history_of self.old.seat passed)
            (history_of self.new.seat passed) self.new.row.last }
        ensures row { IsRowOf self.new.row.stays self.new.seat }
        ensures rest { IsAtRest self.new.seat }
    {
        self.row.park(&mut self.seat, n, v)
    }

    pub(crate) fn take_own(&mut self, n: SessionNo, first: bool) -> Option<V>
        requires session { n.0 ≢ 0 }
        requires row { IsRowOf self.old.row.stays self.old.seat }
        requires rest { IsAtRest self.old.seat }
        ensures answer { (passed : Option ℕ) → MatchOption result
            (TakesNoneOwn (history_of self.old.seat passed)
            (history_of self.new.seat passed) first)
            (λ v. TakesOwn (history_of self.old.seat passed)
            (history_of self.new.seat passed) n first (V.shows v)) }
        ensures grows { (passed : Option ℕ) → Grows (history_of self.old.seat passed)
            (history_of self.new.seat passed) self.new.row.last }
        ensures row { IsRowOf self.new.row.stays self.new.seat }
        ensures rest { IsAtRest self.new.seat }
    {
        self.row.take_own(&mut self.seat, n, first)
    }
}
