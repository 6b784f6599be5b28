//! What no clause says of whole seats at a board of words and slots: that their calls succeed, and the marks that come out.
ghost use Rattle.std.specs.Prelude.{◌≡◌, IfOk};
ghost use Rattle.hx_pool.specs.SeatView.{AreOfOneBoard};

use crate::tests::callers::{
    Card, Cards, ONE, drain_one, drained, park_new, parked, purged, rules, takeovers_in_order,
    three_takeovers, use_other, use_own, used,
};
use hx_base::{ConnId, Millis, Mode, NoMemory, ServerNo, ThreadNo, Totals};
use hx_places::Board;
use hx_pool::{Entry, HasHistory, JournalSeat, NoPark, NoneOver, Seat, one_exchange};
use hx_purge::SlotSeat;
use std::alloc::Global;
use std::test::Fail;
use std::thread::{Threads, join};

/// The seats of the three threads of a board.
#[derive(Drop)]
struct Three<'a> {
    a: SlotSeat<'a, Card>,
    b: SlotSeat<'a, Card>,
    c: SlotSeat<'a, Card>,
}

fn seats_of<'a>(board: &'a mut Board<Card>, alloc: Global) -> Result<Three<'a>, NoMemory>
    requires first { board.old.given ≡ 0 }
    requires terms { (board.old.terms.threads ≡ 3)
        × (board.old.terms.server ≡ record { 0 = 0 }) }
    ensures a { IfOk result (λ s. s.a.history.about.server ≡ record { 0 = 0 }) }
    ensures b { IfOk result (λ s. s.b.history.about.server ≡ record { 0 = 0 }) }
    ensures c { IfOk result (λ s. s.c.history.about.server ≡ record { 0 = 0 }) }
    ensures one { IfOk result (λ s. AreOfOneBoard s.a.history s.c.history) }
{
    let mut seats = board.seats(alloc)?;
    let third = seats.pop().unwrap();
    let second = seats.pop().unwrap();
    let first = seats.pop().unwrap();
    let a = SlotSeat::new(alloc, first)?;
    let b = SlotSeat::new(alloc, second)?;
    let c = SlotSeat::new(alloc, third)?;
    Ok(Three { a, b, c })
}

/// The seat of a board with one thread.
fn seat_of<'a>(board: &'a mut Board<Card>, alloc: Global) -> Result<SlotSeat<'a, Card>, NoMemory>
    requires first { board.old.given ≡ 0 }
    requires terms { (board.old.terms.threads ≡ 1)
        × (board.old.terms.server ≡ record { 0 = 0 }) }
    ensures { IfOk result (λ s. s.history.about.server ≡ record { 0 = 0 }) }
{
    let mut seats = board.seats(alloc)?;
    let seat = seats.pop().unwrap();
    SlotSeat::new(alloc, seat)
}

/// How many of so many connections were parked.
fn park_some(seat: &mut SlotSeat<'_, Card>, count: u8) -> u8
    requires { seat.old.history.about.server ≡ record { 0 = 0 } }
    ensures { seat.new.history.about ≡ seat.old.history.about }
{
    let mut parked: u8 = 0;
    for _ in 0..count {
        if let Ok((_, Some(_))) = park_new(seat, ONE) {
            parked = parked.saturating_add(1);
        }
    }
    parked
}

#[test]
fn a_caller_of_any_seat_runs_without_a_lock(rt: HostRuntime) -> Result<(), Fail> {
    let rules = rules(Mode::Always, 0);
    let mut board = Board::<Card>::new(rt.alloc(), ServerNo(0), rules, 3, Millis(0))?;
    let Three {
        mut a,
        mut b,
        mut c,
    } = seats_of(&mut board, rt.alloc())?;
    assert_eq!(rt; one_exchange(&mut a, &mut Cards, ONE), Some(ConnId(1)));
    assert_eq!(rt; one_exchange(&mut b, &mut Cards, ONE), Some(ConnId(2)));
    let one = Totals {
        opened: 1,
        parked: 1,
        taken: 1,
        over: 0,
        care: 0,
        closed: 1,
    };
    assert_eq!(rt; (a.totals(), b.totals()), (one, one));
    a.tell(&mut c);
    assert_eq!(rt; one_exchange(&mut c, &mut Cards, ONE), Some(ConnId(3)));
    Ok(())
}

#[test]
fn a_third_thread_takes_over_once_two_rest(rt: HostRuntime) -> Result<(), Fail> {
    let rules = rules(Mode::Always, 2);
    let mut board = Board::<Card>::new(rt.alloc(), ServerNo(0), rules, 3, Millis(0))?;
    let Three {
        mut a,
        mut b,
        mut c,
    } = seats_of(&mut board, rt.alloc())?;
    assert_eq!(rt; park_new(&mut a, ONE), Ok(parked(0, ONE, 1, 0)));
    assert!(rt; b.take_own(ONE, true).is_none());
    assert!(rt; b.take_over(ONE, true).err() == Some(NoneOver::BelowLow(1)));
    assert_eq!(rt; park_new(&mut b, ONE), Ok(parked(1, ONE, 2, 0)));
    assert!(rt; c.take_own(ONE, true).is_none());
    assert_eq!(rt; use_other(&mut c, ONE, true), used(2, (0, 0), 1, 1, 0));
    a.set_drain();
    let drains = Entry::SetGate {
        t: ThreadNo(0),
        draining: true,
    };
    assert_eq!(rt; a.last().first, Some(drains));
    assert_eq!(rt; drain_one(&mut a), drained(2, 1, 0, 1));
    assert_eq!(rt; drain_one(&mut a), drained(1, 2, 0, 2));
    assert!(rt; !a.is_drained());
    assert_eq!(rt; drain_one(&mut a), (None, None));
    assert!(rt; a.is_drained() && !c.ready());
    let one = |opened, parked, over, care, closed| Totals {
        opened,
        parked,
        taken: 0,
        over,
        care,
        closed,
    };
    assert_eq!(rt; a.totals(), one(1, 1, 0, 2, 2));
    assert_eq!(rt; b.totals(), one(1, 1, 0, 0, 0));
    assert_eq!(rt; c.totals(), one(0, 1, 1, 0, 0));
    Ok(())
}

#[test]
fn a_takeover_goes_by_rows_then_lists_then_places(rt: HostRuntime) -> Result<(), Fail> {
    let rules = rules(Mode::Always, 0);
    let mut board = Board::<Card>::new(rt.alloc(), ServerNo(0), rules, 3, Millis(0))?;
    let Three {
        mut a,
        mut b,
        mut c,
    } = seats_of(&mut board, rt.alloc())?;
    assert_eq!(rt;
        three_takeovers(&mut a, &mut b, &mut c),
        takeovers_in_order()
    );
    Ok(())
}

#[test]
fn each_interval_leaves_half(rt: HostRuntime) -> Result<(), Fail> {
    let rules = rules(Mode::Always, 0);
    let mut board = Board::<Card>::new(rt.alloc(), ServerNo(0), rules, 1, Millis(0))?;
    let mut seat = seat_of(&mut board, rt.alloc())?;
    assert_eq!(rt; park_some(&mut seat, 5), 5);
    // The moment, and how many go. None: no new interval.
    let table = [
        (99, None),
        (100, Some(3)),
        (150, None),
        (200, Some(1)),
        (300, Some(1)),
        (400, Some(0)),
    ];
    for (now, gone) in table {
        assert_eq!(rt; purged(&mut seat, Millis(now)), gone, "at {now}");
    }
    assert_eq!(rt; park_some(&mut seat, 5), 5);
    // Four intervals at once.
    assert_eq!(rt; purged(&mut seat, Millis(800)), Some(5));
    Ok(())
}

#[test]
fn the_65th_connection_meets_a_full_row_and_comes_back(rt: HostRuntime) -> Result<(), Fail> {
    let rules = rules(Mode::Always, 0);
    let mut board = Board::<Card>::new(rt.alloc(), ServerNo(0), rules, 1, Millis(0))?;
    let mut seat = seat_of(&mut board, rt.alloc())?;
    assert_eq!(rt; park_some(&mut seat, 64), 64);
    assert_eq!(rt; park_new(&mut seat, ONE), Err(NoPark::RowFull));
    assert_eq!(rt; seat.totals().parked, 64);
    Ok(())
}

/// How many turns each thread makes.
const TURNS: u64 = 40;

/// Every fourth turn it purges.
fn purge_in<S: Seat<Card>>(seat: &mut S, turn: u64)
    ensures { (S.history seat.new).about ≡ (S.history seat.old).about }
{
    if turn % 4 == 3 {
        let _gone = purged(seat, Millis(turn.saturating_mul(50)));
    }
}

/// Every sixteenth turn it lets the server drain for a while.
fn drain_in<S: Seat<Card>>(seat: &mut S, turn: u64)
    ensures { (S.history seat.new).about ≡ (S.history seat.old).about }
{
    if turn % 16 == 15 {
        drain_some(seat);
    }
}

/// Lets the server drain for a while.
fn drain_some<S: Seat<Card>>(seat: &mut S)
    ensures { (S.history seat.new).about ≡ (S.history seat.old).about }
{
    seat.set_drain();
    for _ in 0..16u8 {
        let _drained = drain_one(seat);
    }
    seat.set_ready();
}

/// Parks, takes from its own row and from the others, and now and then purges and drains.
fn work<S: Seat<Card>>(seat: &mut S)
    requires { (S.history seat.old).about.server ≡ record { 0 = 0 } }
    ensures { (S.history seat.new).about ≡ (S.history seat.old).about }
{
    for turn in 0..TURNS {
        let _parked = park_new(seat, ONE);
        let _own = use_own(seat, ONE, turn % 2 == 0);
        let _other = use_other(seat, ONE, true);
        purge_in(seat, turn);
        drain_in(seat, turn);
    }
}

/// A thread's seat and all the marks that it made.
type Journal<'a> = JournalSeat<SlotSeat<'a, Card>>;

fn keep_busy<'a>(alloc: Global, seat: SlotSeat<'a, Card>) -> Journal<'a>
    requires { seat.history.about.server ≡ record { 0 = 0 } }
{
    let mut journal = JournalSeat::new(alloc, seat);
    if journal.reserve(2048).is_ok() {
        work(&mut journal);
    }
    journal
}

fn all_busy<'a, R: Threads + Sync>(
    rt: &R,
    alloc: Global,
    seats: Three<'a>,
) -> (Journal<'a>, (Journal<'a>, Journal<'a>))
    requires a { seats.a.history.about.server ≡ record { 0 = 0 } }
    requires b { seats.b.history.about.server ≡ record { 0 = 0 } }
    requires c { seats.c.history.about.server ≡ record { 0 = 0 } }
{
    let Three { a, b, c } = seats;
    join(
        rt,
        move || keep_busy(alloc, a),
        move ||
            requires b { b.history.about.server ≡ record { 0 = 0 } }
            requires c { c.history.about.server ≡ record { 0 = 0 } }
        { join(rt, move || keep_busy(alloc, b), move || keep_busy(alloc, c)) },
    )
}

/// The connections that were opened and closed, and each rest that began and ended, by number and uses.
#[derive(Drop)]
struct Account {
    opened: Vec<u64>,
    closed: Vec<u64>,
    parked: Vec<(u64, u16)>,
    taken: Vec<(u64, u16)>,
}

impl Account {
    fn new(alloc: Global) -> Account {
        Account {
            opened: Vec::new(alloc),
            closed: Vec::new(alloc),
            parked: Vec::new(alloc),
            taken: Vec::new(alloc),
        }
    }

    /// What three threads did, each list sorted.
    fn of(
        alloc: Global,
        first: &[Entry],
        second: &[Entry],
        third: &[Entry],
    ) -> Result<Account, NoMemory> {
        let mut all = Account::new(alloc);
        all.add(first)?;
        all.add(second)?;
        all.add(third)?;
        all.sort();
        Ok(all)
    }

    fn add(&mut self, marks: &[Entry]) -> Result<(), NoMemory> {
        for mark in marks {
            match *mark {
                Entry::Open { id, .. } => self.opened.push(id.0)?,
                Entry::Close { id, .. } => self.closed.push(id.0)?,
                Entry::Park { id, uses, .. } => self.parked.push((id.0, uses))?,
                Entry::Take { id, uses, .. } => self.taken.push((id.0, uses))?,
                _ => {}
            }
        }
        Ok(())
    }

    fn sort(&mut self) {
        self.opened.sort_unstable();
        self.closed.sort_unstable();
        self.parked.sort_unstable();
        self.taken.sort_unstable();
    }

    /// Whether what was opened was closed once, and each rest ended once.
    fn is_settled(&self) -> bool {
        self.opened.as_slice() == self.closed.as_slice()
            && self.parked.as_slice() == self.taken.as_slice()
    }

    /// How many connections were opened, and how many rests began, each counted once.
    fn kinds(&mut self) -> (usize, usize) {
        self.opened.dedup();
        self.parked.dedup();
        (self.opened.len(), self.parked.len())
    }
}

/// Drains all that rests.
fn drain_all(seat: &mut Journal<'_>) {
    seat.set_drain();
    for _ in 0..200u8 {
        let _drained = drain_one(seat);
    }
}

#[test]
fn three_threads_lose_nothing_and_meet_nothing_twice(rt: HostRuntime) -> Result<(), Fail> {
    let rules = rules(Mode::Always, 2);
    let mut board = Board::<Card>::new(rt.alloc(), ServerNo(0), rules, 3, Millis(0))?;
    let seats = seats_of(&mut board, rt.alloc())?;
    let (mut first, (second, third)) = all_busy(&rt, rt.alloc(), seats);
    drain_all(&mut first);
    assert!(rt; first.is_whole() && second.is_whole() && third.is_whole());
    let mut all = Account::of(rt.alloc(), first.marks(), second.marks(), third.marks())?;
    assert!(rt; all.is_settled());
    let (opened, parked) = (all.opened.len(), all.parked.len());
    assert_eq!(rt; opened, 120);
    // No number was given twice, and no connection rested twice after as many uses.
    assert_eq!(rt; all.kinds(), (opened, parked));
    Ok(())
}
