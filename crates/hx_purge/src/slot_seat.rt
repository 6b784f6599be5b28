//! A thread's seat at a board of words and slots.
ghost use Rattle.std.specs.Prelude.{◌≡◌, false};
ghost use Rattle.hx_pool.specs.SeatView.{last_list};
ghost use Rattle.hx_pool.specs.Causes.{caretaker};
ghost use Rattle.hx_pool.specs.Totals.{totals_from};

use crate::drain::{drain_next, set_drain, set_ready};
use crate::own::OwnSeat;
use crate::purge::{NewInterval, due, purge_next};
use crate::sweep::CARETAKER;
use hx_base::{
    ConnId, Face, Faced, Millis, NoMemory, OutOfIds, PlaceNo, PoolRules, SessionNo, ThreadNo,
    Totals,
};
use hx_places::PlaceSeat;
use hx_pool::{Entry, HasHistory, LastMarks, NoneOver, Quota, Seat, Unparked};
use hx_resting::{NO_MARKS, NO_TOTALS, ROW, Taker, most_opens, one_mark, take_entry, with_counted};
use hx_rows::Row;
use hx_takeover::{Over, find_over};
use std::alloc::Global;
use std::marker::Model;

/// The totals with these marks counted.
fn with_marks(totals: Totals, last: LastMarks) -> Totals
    ensures { result ≡ totals_from totals (last_list last) }
{
    let mut totals = totals;
    if let Some(entry) = last.first {
        totals = with_counted(totals, entry);
    }
    if let Some(entry) = last.second {
        totals = with_counted(totals, entry);
    }
    totals
}

/// The take of a purge or a drain.
fn care_entry(t: ThreadNo, place: PlaceNo, face: Face) -> Entry
    ensures { result ≡ Entry.Take t caretaker false place face.id face.uses }
{
    let taker = Taker {
        t,
        n: CARETAKER,
        first: false,
    };
    take_entry(taker, place, face)
}

/// One thread's seat. No call of it waits for another thread, and no call but `new` takes memory.
#[derive(Drop)]
pub struct SlotSeat<'a, V: Faced> {
    own: OwnSeat<'a, V>,
    totals: Totals,
    /// How many places the drain has passed since the seat set the server draining.
    passed: Option<u16>,
    last: LastMarks,
}

impl<'a, V: Faced> Model for SlotSeat<'a, V> {
    ghost use Rattle.hx_pool.specs.SeatView.{last_list};
    ghost use Rattle.hx_places.specs.Seats.{history_of};
    ghost use Rattle.hx_purge.specs.Slots.{SlotView, KeepsSlot};

    ghost Value = { SlotView };

    ghost view = { λ s. record {
      history = history_of s.own.seat s.passed;
      last = last_list s.last;
    } };

    ghost invariant = { λ s. KeepsSlot s.own.seat s.own.row.stays s.passed s.totals };
}

impl<'a, V: Faced> SlotSeat<'a, V> {
    ghost use Rattle.std.specs.Prelude.{◌≢◌, ◌*◌, [], true, Some, None, IfOk, MatchBool};
    ghost use Rattle.hx_purge.specs.Drains.{IsEmptied};
    ghost use Rattle.hx_places.specs.declared.view.Hand.TheVariants.{Idle};
    ghost use Rattle.hx_places.specs.Seats.{history_of};

    /// The seat of a thread that made no entry and claims no place.
    pub fn new(alloc: Global, seat: PlaceSeat<'a, V>) -> Result<SlotSeat<'a, V>, NoMemory>
        requires unused { seat.view.mine ≡ [] }
        requires idle { seat.view.hand ≡ Idle }
        ensures history { IfOk result (λ s. s.history ≡ history_of seat.entry None) }
        ensures last { IfOk result (λ s. s.last ≡ []) }
    {
        seat.thread();
        let row = Row::new(alloc)?;
        Ok(SlotSeat {
            own: OwnSeat { seat, row },
            totals: NO_TOTALS,
            passed: None,
            last: NO_MARKS,
        })
    }

    /// Whether the drain has passed every place since the seat set the server draining. Then, while
    /// nobody has set the drain state since, nothing rests but parks under way.
    pub fn is_drained(&self) -> bool
        ensures passed { MatchBool result
            (self.now.history.passed ≡ Some (64 * self.now.history.about.threads))
            (self.now.history.passed ≢ Some (64 * self.now.history.about.threads)) }
        ensures emptied { result ≡ true → IsEmptied self.now.history }
    {
        self.own.seat.thread();
        self.passed == Some(ROW * self.own.seat.threads() as u16)
    }
}

impl<'a, V: Faced> HasHistory for SlotSeat<'a, V> {
    ghost use Rattle.std.specs.Prelude.{None};

    ghost history = { λ s. s.history };

    ghost last_marks = { λ s. s.last };

    ghost kept_from = { λ _. None };

    ghost spare = { λ _. 0 };

    fn last(&self) -> LastMarks {
        self.last
    }
}

impl<'a, V: Faced> Seat<V> for SlotSeat<'a, V> {
    fn thread(&self) -> ThreadNo {
        self.own.seat.thread()
    }

    fn rules(&self) -> PoolRules {
        self.own.seat.rules()
    }

    fn totals(&self) -> Totals {
        self.totals
    }

    fn open_new(&mut self, n: SessionNo) -> Result<ConnId, OutOfIds> {
        self.last = NO_MARKS;
        let t = self.own.seat.thread();
        if self.own.seat.opens() >= most_opens(t) {
            return Err(OutOfIds);
        }
        let id = self.own.seat.draw(n);
        let entry = Entry::Open { t, n, id };
        self.last = one_mark(entry);
        self.totals = with_counted(self.totals, entry);
        Ok(id)
    }

    fn park(&mut self, n: SessionNo, v: V) -> Result<PlaceNo, Unparked<V>> {
        let result = self.own.park(n, v);
        self.last = self.own.row.last();
        self.totals = with_marks(self.totals, self.last);
        result
    }

    fn take_own(&mut self, n: SessionNo, first: bool) -> Option<V> {
        let result = self.own.take_own(n, first);
        self.last = self.own.row.last();
        self.totals = with_marks(self.totals, self.last);
        result
    }

    fn take_over(&mut self, n: SessionNo, first: bool) -> Result<V, NoneOver> {
        self.last = NO_MARKS;
        let t = self.own.seat.thread();
        match find_over(&mut self.own.seat, n, first) {
            Ok(over) => {
                let Over { place, v } = over;
                let entry = take_entry(Taker { t, n, first }, place, v.face());
                self.last = one_mark(entry);
                self.totals = with_counted(self.totals, entry);
                Ok(v)
            }
            Err(why) => Err(why),
        }
    }

    fn close(&mut self, n: SessionNo, id: ConnId) {
        let t = self.own.seat.thread();
        self.own.seat.note_close(n, id);
        let entry = Entry::Close { t, n, id };
        self.last = one_mark(entry);
        self.totals = with_counted(self.totals, entry);
    }

    fn ready(&mut self) -> bool {
        self.last = NO_MARKS;
        !self.own.seat.gate()
    }

    fn due(&mut self, now: Millis) -> Option<Quota> {
        self.last = NO_MARKS;
        let t = self.own.seat.thread();
        match due(&mut self.own.seat, now) {
            Some(interval) => {
                let NewInterval {
                    round,
                    before,
                    quota,
                } = interval;
                self.last = one_mark(Entry::Round {
                    t,
                    k: round,
                    old: before,
                });
                Some(quota)
            }
            None => None,
        }
    }

    fn purge_next(&mut self, quota: &mut Quota) -> Option<V> {
        self.last = NO_MARKS;
        let t = self.own.seat.thread();
        match purge_next(&mut self.own.seat, quota) {
            Some(over) => {
                let Over { place, v } = over;
                let entry = care_entry(t, place, v.face());
                self.last = one_mark(entry);
                self.totals = with_counted(self.totals, entry);
                Some(v)
            }
            None => None,
        }
    }

    fn set_drain(&mut self) {
        let t = self.own.seat.thread();
        set_drain(&mut self.own.seat);
        self.last = one_mark(Entry::SetGate { t, draining: true });
        self.passed = Some(0);
    }

    fn drain_next(&mut self) -> Option<V> {
        self.last = NO_MARKS;
        let t = self.own.seat.thread();
        let mut passed = self.passed;
        let taken = drain_next(&mut self.own.seat, &mut passed);
        self.passed = passed;
        match taken {
            Some(over) => {
                let Over { place, v } = over;
                let entry = care_entry(t, place, v.face());
                self.last = one_mark(entry);
                self.totals = with_counted(self.totals, entry);
                Some(v)
            }
            None => None,
        }
    }

    fn set_ready(&mut self) {
        let t = self.own.seat.thread();
        set_ready(&mut self.own.seat);
        self.last = one_mark(Entry::SetGate { t, draining: false });
    }

    fn tell(&mut self, other: &mut Self) {
        self.own.seat.tell(&mut other.own.seat);
    }
}
