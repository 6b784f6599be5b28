//! A seat that is alone at its board, which has one row.
ghost use Rattle.std.specs.Prelude.{◌≡◌, IfOk};

use crate::admit::admit;
use crate::ledger::Ledger;
use crate::rest::Rest;
use crate::sweep::{CARETAKER, caretaker_of, sweep};
use crate::take::{Taker, take_best, take_entry};
use hx_base::{
    ConnId, Faced, Millis, NoMemory, OutOfIds, PlaceNo, PoolRules, ServerNo, SessionNo, ThreadNo,
    Totals,
};
use hx_pool::{Entry, HasHistory, LastMarks, NoneOver, Quota, Seat, Unparked};
use hx_resting::{
    NO_MARKS, NO_TOTALS, allows_some, one_mark, quota_after, refused_by_rules, with_counted,
};
use std::alloc::Global;
use std::marker::Model;

/// The one thread of the board.
const ME: ThreadNo = ThreadNo(0);

/// How many connections one seat may open, so that sixteen stay below 2^40 together.
const MOST_OPENS: u64 = 68_719_476_736;

/// The seat of thread 0 at a board of one row. No call but `new` takes memory, and none waits.
#[derive(Drop)]
pub struct PlainSeat<V: Faced> {
    ledger: Ledger,
    server: ServerNo,
    rules: PoolRules,
    start: Millis,
    /// The next connection's number.
    next: u64,
    draining: bool,
    /// The last purge interval.
    round: u64,
    totals: Totals,
    /// How many places the drain has passed since the server was set draining.
    passed: Option<u8>,
    last: LastMarks,
    /// The one parked last stands last.
    resting: Vec<Rest<V>>,
}

impl<V: Faced> Model for PlainSeat<V> {
    ghost use Rattle.std.specs.Vec.{vec_capacity};
    ghost use Rattle.hx_pool.specs.SeatView.{last_list};
    ghost use Rattle.hx_plain.specs.PlainSeat.{PlainView, about_alone};
    ghost use Rattle.hx_plain.specs.Row.{rests_of};
    ghost use Rattle.hx_plain.specs.Plain.{alone, known, KeepsAll};

    ghost Value = { PlainView };

    ghost view = { λ s. record {
      history = alone (about_alone s.server s.rules s.start s.ledger.board)
          s.passed s.ledger.notes;
      last = last_list s.last;
    } };

    ghost invariant = { λ s. let rests = rests_of V.shows s.resting.items in
        KeepsAll (about_alone s.server s.rules s.start s.ledger.board) s.ledger.notes
        (known s.next s.draining s.round rests) rests s.passed s.totals
        (vec_capacity s.resting) };
}

impl<V: Faced> PlainSeat<V> {
    ghost use Rattle.hx_plain.specs.PlainSeat.{about_alone, IsUnused};

    /// A seat at a board of its own, where nothing rests. Purge intervals count from `start`.
    pub fn new(
        alloc: Global,
        server: ServerNo,
        rules: PoolRules,
        start: Millis,
    ) -> Result<PlainSeat<V>, NoMemory>
        ensures board { IfOk result (λ s. s.history.about
            ≡ about_alone server rules start s.history.about.board) }
        ensures unused { IfOk result (λ s. IsUnused s.history) }
    {
        let Ok(resting) = Vec::with_capacity(alloc, 64) else {
            return Err(NoMemory);
        };
        let ledger = Ledger::new(alloc)?;
        Ok(PlainSeat {
            ledger,
            server,
            rules,
            start,
            next: 1,
            draining: false,
            round: 0,
            totals: NO_TOTALS,
            passed: None,
            last: NO_MARKS,
            resting,
        })
    }
}

impl<V: Faced> HasHistory for PlainSeat<V> {
    ghost use Rattle.std.specs.Prelude.{None};

    ghost history = { λ s. s.history };

    ghost last_marks = { λ s. s.last };

    ghost kept_from = { λ _. None };

    ghost spare = { λ _. 0 };

    fn last(&self) -> LastMarks {
        self.last
    }
}

impl<V: Faced> Seat<V> for PlainSeat<V> {
    fn thread(&self) -> ThreadNo {
        // A look at a field brings in what the type keeps: that the seat stands in one history.
        let _next = &self.next;
        ME
    }

    fn rules(&self) -> PoolRules {
        self.rules
    }

    fn totals(&self) -> Totals {
        self.totals
    }

    fn open_new(&mut self, n: SessionNo) -> Result<ConnId, OutOfIds> {
        self.last = NO_MARKS;
        if self.next > MOST_OPENS {
            return Err(OutOfIds);
        }
        let id = ConnId(self.next);
        let entry = Entry::Open { t: ME, n, id };
        self.ledger.write(entry);
        self.last = one_mark(entry);
        self.totals = with_counted(self.totals, entry);
        self.next += 1;
        Ok(id)
    }

    fn park(&mut self, n: SessionNo, v: V) -> Result<PlaceNo, Unparked<V>> {
        self.last = NO_MARKS;
        if let Some(why) = refused_by_rules(&self.rules) {
            return Err(Unparked { v, why });
        }
        let slice = self.resting.as_slice();
        let place = match admit(&mut self.ledger, slice, ME, self.draining, self.rules.max) {
            Ok(place) => place,
            Err(why) => return Err(Unparked { v, why }),
        };
        let face = v.face();
        let at = PlaceNo { row: ME.0, place };
        let entry = Entry::Park {
            t: ME,
            n,
            id: face.id,
            place: at,
            uses: face.uses,
        };
        self.ledger.write_park(entry, &v);
        self.ledger.write(Entry::Gate {
            t: ME,
            draining: self.draining,
        });
        self.last = one_mark(entry);
        self.totals = with_counted(self.totals, entry);
        self.resting.push_reserved(Rest { place, v });
        Ok(at)
    }

    fn take_own(&mut self, n: SessionNo, first: bool) -> Option<V> {
        self.last = NO_MARKS;
        let taker = Taker { t: ME, n, first };
        let mode = self.rules.mode;
        let Some(rest) = take_best(&mut self.ledger, &mut self.resting, taker, mode) else {
            return None;
        };
        let Rest { place, v } = rest;
        let entry = take_entry(taker, place, v.face());
        self.last = one_mark(entry);
        self.totals = with_counted(self.totals, entry);
        Some(v)
    }

    fn take_over(&mut self, _n: SessionNo, first: bool) -> Result<V, NoneOver> {
        self.last = NO_MARKS;
        if !allows_some(self.rules.mode, first) {
            return Err(NoneOver::NotAllowed);
        }
        let count = self.resting.len() as u64;
        self.ledger.write(Entry::Count { t: ME, c: count });
        if count < self.rules.low as u64 {
            return Err(NoneOver::BelowLow(count));
        }
        Err(NoneOver::NoneSeen)
    }

    fn close(&mut self, n: SessionNo, id: ConnId) {
        let entry = Entry::Close { t: ME, n, id };
        self.ledger.write(entry);
        self.last = one_mark(entry);
        self.totals = with_counted(self.totals, entry);
    }

    fn ready(&mut self) -> bool {
        self.last = NO_MARKS;
        self.ledger.write(Entry::Gate {
            t: ME,
            draining: self.draining,
        });
        !self.draining
    }

    fn due(&mut self, now: Millis) -> Option<Quota> {
        self.last = NO_MARKS;
        if self.rules.delay.0 == 0 {
            return None;
        }
        let old = self.round;
        let k = now.0.saturating_sub(self.start.0) / self.rules.delay.0;
        let entry = Entry::Round { t: ME, k, old };
        self.ledger.write(entry);
        if old >= k {
            return None;
        }
        self.round = k;
        self.last = one_mark(entry);
        let count = self.resting.len() as u64;
        self.ledger.write(Entry::Count { t: ME, c: count });
        Some(quota_after(ME, count, k - old))
    }

    fn purge_next(&mut self, quota: &mut Quota) -> Option<V> {
        self.last = NO_MARKS;
        if quota.left == 0 {
            return None;
        }
        let from = quota.seen as u8;
        let Some((passed, rest)) = sweep(&mut self.ledger, &mut self.resting, ME, from) else {
            quota.seen = 64;
            return None;
        };
        let Rest { place, v } = rest;
        let entry = take_entry(caretaker_of(ME), place, v.face());
        self.last = one_mark(entry);
        self.totals = with_counted(self.totals, entry);
        let seen = from + passed + 1;
        *quota = Quota {
            left: quota.left - 1,
            row: ME.0,
            place: seen,
            seen: seen as u32,
        };
        Some(v)
    }

    fn set_drain(&mut self) {
        let entry = Entry::SetGate {
            t: ME,
            draining: true,
        };
        self.ledger.write(entry);
        self.last = one_mark(entry);
        self.draining = true;
        self.passed = Some(0);
    }

    fn drain_next(&mut self) -> Option<V> {
        self.last = NO_MARKS;
        let Some(from) = self.passed else {
            return None;
        };
        let Some((passed, rest)) = sweep(&mut self.ledger, &mut self.resting, ME, from) else {
            self.passed = Some(64);
            return None;
        };
        let Rest { place, v } = rest;
        let entry = take_entry(caretaker_of(ME), place, v.face());
        self.last = one_mark(entry);
        self.totals = with_counted(self.totals, entry);
        self.passed = Some(from + passed + 1);
        Some(v)
    }

    fn set_ready(&mut self) {
        let entry = Entry::SetGate {
            t: ME,
            draining: false,
        };
        self.ledger.write(entry);
        self.last = one_mark(entry);
        self.draining = false;
    }

    fn tell(&mut self, other: &mut Self) {
        // What the type keeps of each seat, brought in by a look at a field: both have the thread ME, so that no two of
        // them are seats of one board, and the call has no caller.
        let _mine = &self.next;
        let _theirs = &other.next;
        unreachable!()
    }
}
