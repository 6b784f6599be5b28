//! A thread's seat at a board whose value is exchanged.
ghost use Rattle.std.specs.Prelude.{◌≡◌, ◌<◌, ◌≤◌};

use crate::desk::LockDesk;
use crate::other_rows::{Request, start_of};
use crate::rule::OneValue;
use atomic_table::Shared;
use hx_base::{
    ConnId, Faced, Millis, Mode, OutOfIds, PlaceNo, PoolRules, SessionNo, ThreadNo, Totals,
};
use hx_pool::{BoardTerms, Entry, HasHistory, LastMarks, NoneOver, Quota, Seat, Unparked};
use hx_resting::{
    Desk, NO_MARKS, NO_TOTALS, ROW, Rest, Rows, Taker, View, Wanted, admit, allows_some,
    most_opens, one_mark, place_at, quota_after, quota_at, refused_by_rules, sweep, take_best,
    take_entry, with_counted,
};
use std::marker::Model;
use std::sync::Wait;

/// The session number under which a purge or a drain takes.
const CARETAKER: SessionNo = SessionNo(0);

/// The caretaker takes whatever rests.
const ALL: Wanted = Wanted {
    all: true,
    mode: Mode::Always,
    first: false,
};

/// One thread's seat. Its calls wait until no other seat has the value.
#[derive(Drop)]
pub struct LockSeat<'a, R: Wait, V: Faced> {
    rt: &'a R,
    desk: LockDesk<'a, V>,
    terms: BoardTerms,
    thread: ThreadNo,
    /// How many connections it opened.
    opened: u64,
    totals: Totals,
    /// How many places the drain has passed since the seat set the server draining.
    passed: Option<u16>,
    last: LastMarks,
}

impl<'a, R: Wait, V: Faced> Model for LockSeat<'a, R, V> {
    ghost use Rattle.hx_pool.specs.SeatView.{last_list};
    ghost use Rattle.hx_lockboard.specs.Seats.{SeatView, history, KeepsAll};

    ghost Value = { SeatView };

    ghost view = { λ s. record {
      history = history s.terms s.thread s.passed s.desk;
      last = last_list s.last;
    } };

    ghost invariant = { λ s.
        KeepsAll s.terms s.thread s.desk s.passed s.totals s.opened };
}

impl<'a, R: Wait, V: Faced> LockSeat<'a, R, V> {
    ghost use Rattle.std.specs.Prelude.{[]};
    ghost use Rattle.hx_pool.specs.SeatView.{about_of};
    ghost use Rattle.hx_lockboard.specs.Views.{worker};
    ghost use Rattle.hx_lockboard.specs.Seats.{IsUnused};

    pub(crate) fn new(
        rt: &'a R,
        shared: &'a Shared<Option<Rows<V>>, View, BoardTerms, OneValue>,
        token: atomic_table::Seat<Option<Rows<V>>, View>,
        terms: BoardTerms,
        thread: ThreadNo,
    ) -> LockSeat<'a, R, V>
        requires seated { (token.table_id ≡ shared.now.table_id) × (shared.now.key ≡ terms) }
        requires sized { (shared.now.table_id.words ≡ 2) × (shared.now.table_id.slots ≡ 1) }
        requires works { token.me ≡ (worker terms thread, []) }
        requires inside { (thread.0 < terms.threads) × (terms.threads ≤ 16) }
        ensures about { result.history.about ≡ about_of terms thread shared.now.table_id }
        ensures unused { IsUnused result.history }
    {
        LockSeat {
            rt,
            desk: LockDesk::new(shared, token),
            terms,
            thread,
            opened: 0,
            totals: NO_TOTALS,
            passed: None,
            last: NO_MARKS,
        }
    }
}

impl<'a, R: Wait, V: Faced> HasHistory for LockSeat<'a, R, V> {
    ghost use Rattle.std.specs.Prelude.{None};

    ghost history = { λ s. s.history };

    ghost last_marks = { λ s. s.last };

    ghost kept_from = { λ _. None };

    ghost spare = { λ _. 0 };

    fn last(&self) -> LastMarks {
        self.last
    }
}

impl<'a, R: Wait, V: Faced> Seat<V> for LockSeat<'a, R, V> {
    fn thread(&self) -> ThreadNo {
        self.thread
    }

    fn rules(&self) -> PoolRules {
        self.terms.rules
    }

    fn totals(&self) -> Totals {
        self.totals
    }

    fn open_new(&mut self, n: SessionNo) -> Result<ConnId, OutOfIds> {
        self.last = NO_MARKS;
        if self.opened >= most_opens(self.thread) {
            return Err(OutOfIds);
        }
        let mut rows = self.desk.get(self.rt);
        let id = ConnId(rows.next);
        let entry = Entry::Open {
            t: self.thread,
            n,
            id,
        };
        self.desk.write(entry);
        rows.next += 1;
        self.desk.give(rows);
        self.last = one_mark(entry);
        self.totals = with_counted(self.totals, entry);
        self.opened += 1;
        Ok(id)
    }

    fn park(&mut self, n: SessionNo, v: V) -> Result<PlaceNo, Unparked<V>> {
        self.last = NO_MARKS;
        if let Some(why) = refused_by_rules(&self.terms.rules) {
            return Err(Unparked { v, why });
        }
        let t = self.thread;
        let threads = self.terms.threads;
        let max = self.terms.rules.max;
        let mut rows = self.desk.get(self.rt);
        let draining = rows.draining;
        let slice = rows.resting.as_slice();
        let q = match admit(&mut self.desk, slice, t, threads, draining, max) {
            Ok(q) => q,
            Err(why) => {
                self.desk.give(rows);
                return Err(Unparked { v, why });
            }
        };
        let face = v.face();
        let place = place_at(t, threads, q);
        let entry = Entry::Park {
            t,
            n,
            id: face.id,
            place,
            uses: face.uses,
        };
        self.desk.write_park(entry, &v);
        self.desk.write(Entry::Gate { t, draining });
        rows.resting.push_reserved(Rest { place, v });
        self.desk.give(rows);
        self.last = one_mark(entry);
        self.totals = with_counted(self.totals, entry);
        Ok(place)
    }

    fn take_own(&mut self, n: SessionNo, first: bool) -> Option<V> {
        self.last = NO_MARKS;
        let taker = Taker {
            t: self.thread,
            n,
            first,
        };
        let mode = self.terms.rules.mode;
        let mut rows = self.desk.get(self.rt);
        let taken = take_best(&mut self.desk, &mut rows.resting, taker, mode);
        self.desk.give(rows);
        let Some(rest) = taken else {
            return None;
        };
        let Rest { place, v } = rest;
        let entry = take_entry(taker, place, v.face());
        self.last = one_mark(entry);
        self.totals = with_counted(self.totals, entry);
        Some(v)
    }

    fn take_over(&mut self, n: SessionNo, first: bool) -> Result<V, NoneOver> {
        self.last = NO_MARKS;
        let mode = self.terms.rules.mode;
        if !allows_some(mode, first) {
            return Err(NoneOver::NotAllowed);
        }
        let t = self.thread;
        let threads = self.terms.threads;
        let mut rows = self.desk.get(self.rt);
        let count = rows.resting.len() as u64;
        self.desk.write(Entry::Count { t, c: count });
        if count < self.terms.rules.low as u64 {
            self.desk.give(rows);
            return Err(NoneOver::BelowLow(count));
        }
        let request = Request {
            t,
            threads,
            mode,
            first,
        };
        let from = start_of(rows.resting.as_slice(), request);
        let taker = Taker { t, n, first };
        let wanted = Wanted {
            all: false,
            mode,
            first,
        };
        let resting = &mut rows.resting;
        let taken = sweep(&mut self.desk, resting, taker, threads, wanted, from);
        self.desk.give(rows);
        let Some((_passed, rest)) = taken else {
            return Err(NoneOver::NoneSeen);
        };
        let Rest { place, v } = rest;
        let entry = take_entry(taker, place, v.face());
        self.last = one_mark(entry);
        self.totals = with_counted(self.totals, entry);
        Ok(v)
    }

    fn close(&mut self, n: SessionNo, id: ConnId) {
        let entry = Entry::Close {
            t: self.thread,
            n,
            id,
        };
        let rows = self.desk.get(self.rt);
        self.desk.write(entry);
        self.desk.give(rows);
        self.last = one_mark(entry);
        self.totals = with_counted(self.totals, entry);
    }

    fn ready(&mut self) -> bool {
        self.last = NO_MARKS;
        let rows = self.desk.get(self.rt);
        let draining = rows.draining;
        self.desk.write(Entry::Gate {
            t: self.thread,
            draining,
        });
        self.desk.give(rows);
        !draining
    }

    fn due(&mut self, now: Millis) -> Option<Quota> {
        self.last = NO_MARKS;
        if self.terms.rules.delay.0 == 0 {
            return None;
        }
        let t = self.thread;
        let k = now.0.saturating_sub(self.terms.start.0) / self.terms.rules.delay.0;
        let mut rows = self.desk.get(self.rt);
        let old = rows.round;
        let entry = Entry::Round { t, k, old };
        self.desk.write(entry);
        if old >= k {
            self.desk.give(rows);
            return None;
        }
        rows.round = k;
        let count = rows.resting.len() as u64;
        self.desk.write(Entry::Count { t, c: count });
        self.desk.give(rows);
        self.last = one_mark(entry);
        Some(quota_after(t, count, k - old))
    }

    fn purge_next(&mut self, quota: &mut Quota) -> Option<V> {
        self.last = NO_MARKS;
        if quota.left == 0 {
            return None;
        }
        let t = self.thread;
        let threads = self.terms.threads;
        let taker = Taker {
            t,
            n: CARETAKER,
            first: false,
        };
        let from = quota.seen as u16;
        let mut rows = self.desk.get(self.rt);
        let taken = sweep(&mut self.desk, &mut rows.resting, taker, threads, ALL, from);
        self.desk.give(rows);
        let Some((passed, rest)) = taken else {
            quota.seen = 64 * threads as u32;
            return None;
        };
        let Rest { place, v } = rest;
        let entry = take_entry(taker, place, v.face());
        self.last = one_mark(entry);
        self.totals = with_counted(self.totals, entry);
        *quota = quota_at(t, threads, quota.left - 1, from + passed + 1);
        Some(v)
    }

    fn set_drain(&mut self) {
        let entry = Entry::SetGate {
            t: self.thread,
            draining: true,
        };
        let mut rows = self.desk.get(self.rt);
        self.desk.write(entry);
        rows.draining = true;
        self.desk.give(rows);
        self.last = one_mark(entry);
        self.passed = Some(0);
    }

    fn drain_next(&mut self) -> Option<V> {
        self.last = NO_MARKS;
        let Some(from) = self.passed else {
            return None;
        };
        let threads = self.terms.threads;
        let taker = Taker {
            t: self.thread,
            n: CARETAKER,
            first: false,
        };
        let mut rows = self.desk.get(self.rt);
        let taken = sweep(&mut self.desk, &mut rows.resting, taker, threads, ALL, from);
        self.desk.give(rows);
        let Some((passed, rest)) = taken else {
            self.passed = Some(ROW * threads as u16);
            return None;
        };
        let Rest { place, v } = rest;
        let entry = take_entry(taker, place, v.face());
        self.last = one_mark(entry);
        self.totals = with_counted(self.totals, entry);
        self.passed = Some(from + passed + 1);
        Some(v)
    }

    fn set_ready(&mut self) {
        let entry = Entry::SetGate {
            t: self.thread,
            draining: false,
        };
        let mut rows = self.desk.get(self.rt);
        self.desk.write(entry);
        rows.draining = false;
        self.desk.give(rows);
        self.last = one_mark(entry);
    }

    fn tell(&mut self, other: &mut Self) {
        self.desk.tell(&mut other.desk);
    }
}
