//! The row of one thread.
ghost use Rattle.std.specs.Prelude.{◌≡◌, ◌≢◌, ℕ, [], Option, None, IfOk, IfErr, MatchOption, MatchResult};
ghost use Rattle.hx_pool.specs.SeatView.{Grows, last_list};
ghost use Rattle.hx_pool.specs.Opening.{HasConn};
ghost use Rattle.hx_pool.specs.Parking.{CanPark, Parks, RefusesPark};
ghost use Rattle.hx_pool.specs.Taking.{TakesOwn, TakesNoneOwn};
ghost use Rattle.hx_places.specs.Seats.{history_of};
ghost use Rattle.hx_rows.specs.Row.{IsRowOf, KeepsCount, NeverOverMax};
ghost use Rattle.hx_rows.specs.Steps.{IsAtRest};

use crate::stays::{Stay, Stays};
use crate::steps::{Outcome, admit, rest_at, take_from};
use hx_base::{Face, Faced, NoMemory, PlaceNo, SessionNo, ThreadNo};
use hx_places::PlaceSeat;
use hx_pool::{Entry, LastMarks, NoPark, Unparked};
use hx_resting::{NO_MARKS, Taker, one_mark, refused_by_rules, take_entry};
use std::alloc::Global;
use std::marker::Model;

/// What the thread of a seat parked in its row: its idle list and its safe list, in one list in the
/// order of parking. It is used with one seat, and each Park of that seat comes through it.
#[derive(Drop)]
pub struct Row {
    stays: Stays,
    last: LastMarks,
}

impl Model for Row {
    ghost use Rattle.hx_pool.specs.SeatView.{last_list};
    ghost use Rattle.hx_rows.specs.Row.{RowView};

    ghost Value = { RowView };

    ghost view = { λ r. record { stays = r.stays; last = last_list r.last } };
}

fn park_entry(t: ThreadNo, n: SessionNo, place: PlaceNo, face: Face) -> Entry
    ensures { result ≡ Entry.Park t n face.id place face.uses }
{
    Entry::Park {
        t,
        n,
        id: face.id,
        place,
        uses: face.uses,
    }
}

impl Row {
    /// The row of a seat that parked nothing yet. No other call takes memory.
    pub fn new(alloc: Global) -> Result<Row, NoMemory>
        ensures { IfOk result (λ r. (r.stays ≡ []) × (r.last ≡ [])) }
    {
        Ok(Row {
            stays: Stays::new(alloc)?,
            last: NO_MARKS,
        })
    }

    /// The marks of the last call.
    pub fn last(&self) -> LastMarks
        ensures { last_list result ≡ self.now.last }
    {
        self.last
    }

    /// Lets the connection of session `n` rest at the least own place that a look shows vacant. A
    /// refused value is handed back, and the session still has the connection.
    pub fn park<V: Faced>(
        &mut self,
        seat: &mut PlaceSeat<'_, V>,
        n: SessionNo,
        v: V,
    ) -> Result<PlaceNo, Unparked<V>>
        requires parks { CanPark (history_of seat.old None) n (V.shows v) }
        requires row { IsRowOf self.old.stays seat.old }
        requires rest { IsAtRest seat.old }
        ensures answer { (passed : Option ℕ) → MatchResult result
            (λ place. Parks (history_of seat.old passed) (history_of seat.new passed)
            n place (V.shows v))
            (λ u. RefusesPark (history_of seat.old passed) (history_of seat.new passed)
            n (V.shows v) u.why) }
        ensures back { IfErr result (λ u. V.shows u.v ≡ V.shows v) }
        ensures still { IfErr result
            (λ u. HasConn (history_of seat.new None) n (V.shows v).face.id) }
        ensures grows { (passed : Option ℕ) → Grows (history_of seat.old passed)
            (history_of seat.new passed) self.new.last }
        ensures limit { NeverOverMax seat.new }
        ensures count { KeepsCount seat.new }
        // The row can be used again.
        ensures row { IsRowOf self.new.stays seat.new }
        ensures rest { IsAtRest seat.new }
    {
        self.last = NO_MARKS;
        let t = seat.thread();
        let pool = seat.rules();
        if let Some(why) = refused_by_rules(&pool) {
            return Err(Unparked { v, why });
        }
        let place = match admit(seat) {
            Ok(place) => place,
            Err(why) => return Err(Unparked { v, why }),
        };
        let face = v.face();
        let parked = park_entry(t, n, place, face);
        self.last = one_mark(parked);
        match rest_at(seat, n, place, v) {
            Outcome::Stays => {
                self.stays.add(Stay {
                    place: place.place,
                    face,
                });
                Ok(place)
            }
            Outcome::IsTaken => {
                self.stays.forget(place.place);
                Ok(place)
            }
            Outcome::Back(v) => {
                self.stays.forget(place.place);
                let taker = Taker { t, n, first: false };
                self.last = LastMarks {
                    first: Some(parked),
                    second: Some(take_entry(taker, place, face)),
                };
                Err(Unparked {
                    v,
                    why: NoPark::Draining,
                })
            }
        }
    }

    /// Takes the connection of the own row that session `n` likes best for its request. `first`: it
    /// is the session's first one. What another thread took meanwhile is dropped.
    pub fn take_own<V: Faced>(
        &mut self,
        seat: &mut PlaceSeat<'_, V>,
        n: SessionNo,
        first: bool,
    ) -> Option<V>
        requires session { n.0 ≢ 0 }
        requires row { IsRowOf self.old.stays seat.old }
        requires rest { IsAtRest seat.old }
        ensures answer { (passed : Option ℕ) → MatchOption result
            (TakesNoneOwn (history_of seat.old passed) (history_of seat.new passed) first)
            (λ v. TakesOwn (history_of seat.old passed) (history_of seat.new passed)
            n first (V.shows v)) }
        ensures grows { (passed : Option ℕ) → Grows (history_of seat.old passed)
            (history_of seat.new passed) self.new.last }
        ensures limit { NeverOverMax seat.new }
        ensures count { KeepsCount seat.new }
        // The row can be used again.
        ensures row { IsRowOf self.new.stays seat.new }
        ensures rest { IsAtRest seat.new }
    {
        self.last = NO_MARKS;
        let t = seat.thread();
        let mode = seat.rules().mode;
        while let Some(stay) = self.stays.pull_best(mode, first) {
            let place = PlaceNo {
                row: t.0,
                place: stay.place,
            };
            if let Some(v) = take_from(seat, n, first, place, stay.face) {
                let taker = Taker { t, n, first };
                self.last = one_mark(take_entry(taker, place, stay.face));
                return Some(v);
            }
        }
        None
    }
}
