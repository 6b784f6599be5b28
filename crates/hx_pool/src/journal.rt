//! A seat that stores the marks of its calls.
ghost use Rattle.std.specs.Prelude.{◌≡◌, ◌+◌, ◌-◌, ◌≤◌, true, [], ◌++◌, length, option_to_list};
ghost use Rattle.std.specs.Prelude.{OnOk};
ghost use Rattle.std.specs.Vec.{vec_capacity, vec_len};
ghost use Rattle.hx_pool.specs.SeatView.{last_list};

use crate::budget::Quota;
use crate::entries::{Entry, LastMarks};
use crate::refusals::{NoneOver, Unparked};
use crate::seat::{HasHistory, Seat};
use hx_base::{
    ConnId, Faced, Millis, NoMemory, OutOfIds, PlaceNo, PoolRules, SessionNo, ThreadNo, Totals,
};
use std::alloc::Global;
use std::marker::Model;

/// Stores a mark, or leaves it out where no memory is found for it.
fn keep(stored: &mut Vec<Entry>, whole: &mut bool, mark: Option<Entry>)
    ensures whole { whole.new ≡ true
        → (whole.old ≡ true) × (stored.new.items ≡ stored.old.items ++ option_to_list mark) }
    ensures fits { length (option_to_list mark) ≤ vec_capacity stored.old - vec_len stored.old
        → (whole.new ≡ whole.old)
        × (vec_capacity stored.old - vec_len stored.old
        ≤ (vec_capacity stored.new - vec_len stored.new) + length (option_to_list mark)) }
{
    if let Some(entry) = mark {
        if stored.push(entry).is_err() {
            *whole = false;
        }
    }
}

fn keep_both(stored: &mut Vec<Entry>, whole: &mut bool, last: LastMarks)
    ensures whole { whole.new ≡ true
        → (whole.old ≡ true) × (stored.new.items ≡ stored.old.items ++ last_list last) }
    ensures fits { length (last_list last) ≤ vec_capacity stored.old - vec_len stored.old
        → (whole.new ≡ whole.old)
        × (vec_capacity stored.old - vec_len stored.old
        ≤ (vec_capacity stored.new - vec_len stored.new) + length (last_list last)) }
{
    keep(stored, whole, last.first);
    keep(stored, whole, last.second);
}

/// A seat and the marks of its own calls since the last `clear`.
#[derive(Drop)]
pub struct JournalSeat<S: HasHistory> {
    seat: S,
    stored: Vec<Entry>,
    whole: bool,
}

impl<S: HasHistory> Model for JournalSeat<S> {
    ghost use Rattle.std.specs.Prelude.{◌-◌};
    ghost use Rattle.std.specs.Vec.{vec_capacity, vec_len};
    ghost use Rattle.hx_pool.specs.Journal.{Journal, EndsWithStored};

    ghost Value = { Journal };

    ghost view = { λ j. record {
      history = S.history j.seat;
      last = S.last_marks j.seat;
      stored = j.stored.items;
      whole = j.whole;
      room = vec_capacity j.stored - vec_len j.stored;
    } };

    ghost invariant = { λ j. EndsWithStored (S.history j.seat) j.stored.items j.whole };
}

impl<S: HasHistory> JournalSeat<S> {
    ghost use Rattle.hx_pool.specs.Journal.{RecountsMarks};

    /// A journal that begins with the seat's next call.
    pub fn new(alloc: Global, seat: S) -> JournalSeat<S>
        ensures history { result.history ≡ S.history seat }
        ensures stored { (result.stored ≡ []) × (result.whole ≡ true) }
    {
        JournalSeat {
            seat,
            stored: Vec::new(alloc),
            whole: true,
        }
    }

    /// Makes room for so many marks more.
    pub fn reserve(&mut self, n: usize) -> Result<(), NoMemory>
        ensures room { OnOk result (n ≤ self.new.room) }
        ensures keeps_room { self.old.room ≤ self.new.room }
        ensures history { self.new.history ≡ self.old.history }
        ensures stored { (self.new.stored ≡ self.old.stored) × (self.new.whole ≡ self.old.whole) }
    {
        self.stored.reserve(n)?;
        Ok(())
    }

    /// The stored marks: where the journal is whole, those of all calls since the last `clear`, in
    /// order.
    pub fn marks(&self) -> &[Entry]
        ensures stored { result.now ≡ self.now.stored }
        ensures recounts { RecountsMarks self.now }
    {
        self.stored.as_slice()
    }

    /// Whether every mark since the last `clear` was stored.
    pub fn is_whole(&self) -> bool
        ensures whole { result ≡ self.now.whole }
        ensures recounts { RecountsMarks self.now }
    {
        self.whole
    }

    /// Forgets the stored marks, and begins anew. The room stays.
    pub fn clear(&mut self)
        ensures history { self.new.history ≡ self.old.history }
        ensures stored { (self.new.stored ≡ []) × (self.new.whole ≡ true) }
        ensures keeps_room { self.old.room ≤ self.new.room }
    {
        self.stored.clear();
        self.whole = true;
    }
}

impl<S: HasHistory> HasHistory for JournalSeat<S> {
    ghost use Rattle.hx_pool.specs.Journal.{journal_from};

    ghost history = { λ j. j.history };

    ghost last_marks = { λ j. j.last };

    ghost kept_from = { journal_from };

    ghost spare = { λ j. j.room };

    fn last(&self) -> LastMarks {
        self.seat.last()
    }
}

impl<V: Faced, S: Seat<V>> Seat<V> for JournalSeat<S> {
    fn thread(&self) -> ThreadNo {
        self.seat.thread()
    }

    fn rules(&self) -> PoolRules {
        self.seat.rules()
    }

    fn totals(&self) -> Totals {
        self.seat.totals()
    }

    fn open_new(&mut self, n: SessionNo) -> Result<ConnId, OutOfIds> {
        let result = self.seat.open_new(n);
        keep_both(&mut self.stored, &mut self.whole, self.seat.last());
        result
    }

    fn park(&mut self, n: SessionNo, v: V) -> Result<PlaceNo, Unparked<V>> {
        let result = self.seat.park(n, v);
        keep_both(&mut self.stored, &mut self.whole, self.seat.last());
        result
    }

    fn take_own(&mut self, n: SessionNo, first: bool) -> Option<V> {
        let result = self.seat.take_own(n, first);
        keep_both(&mut self.stored, &mut self.whole, self.seat.last());
        result
    }

    fn take_over(&mut self, n: SessionNo, first: bool) -> Result<V, NoneOver> {
        let result = self.seat.take_over(n, first);
        keep_both(&mut self.stored, &mut self.whole, self.seat.last());
        result
    }

    fn close(&mut self, n: SessionNo, id: ConnId) {
        self.seat.close(n, id);
        keep_both(&mut self.stored, &mut self.whole, self.seat.last());
    }

    fn ready(&mut self) -> bool {
        let result = self.seat.ready();
        keep_both(&mut self.stored, &mut self.whole, self.seat.last());
        result
    }

    fn due(&mut self, now: Millis) -> Option<Quota> {
        let result = self.seat.due(now);
        keep_both(&mut self.stored, &mut self.whole, self.seat.last());
        result
    }

    fn purge_next(&mut self, quota: &mut Quota) -> Option<V> {
        let result = self.seat.purge_next(quota);
        keep_both(&mut self.stored, &mut self.whole, self.seat.last());
        result
    }

    fn set_drain(&mut self) {
        self.seat.set_drain();
        keep_both(&mut self.stored, &mut self.whole, self.seat.last());
    }

    fn drain_next(&mut self) -> Option<V> {
        let result = self.seat.drain_next();
        keep_both(&mut self.stored, &mut self.whole, self.seat.last());
        result
    }

    fn set_ready(&mut self) {
        self.seat.set_ready();
        keep_both(&mut self.stored, &mut self.whole, self.seat.last());
    }

    fn tell(&mut self, other: &mut Self) {
        self.seat.tell(&mut other.seat);
    }
}
