//! Whole seats on sixteen threads: parks, takes, takeovers, purges and drains.
ghost use Rattle.std.specs.Prelude.{◌≡◌};
ghost use Rattle.hx_places_load.specs.Resting.{IsFresh};

use crate::callers::{count_below, drain_one, park_new, purge_at, use_other, use_own};
use crate::card::Card;
use crate::history::History;
use crate::steps::SESSION;
use crate::worker::fresh_seats_of;
use hx_base::{Millis, Mode, NoMemory, PoolRules, ServerNo};
use hx_places::{Board, PlaceSeat};
use hx_pool::{JournalSeat, Seat};
use hx_purge::SlotSeat;
use std::alloc::Global;
use std::thread::{Threads, map_vec};

/// How many threads there are.
const THREADS: u8 = 16;

/// A takeover needs two at rest, and a purge interval is 100 ms.
const RULES: PoolRules = PoolRules {
    mode: Mode::Always,
    max: Some(40),
    low: 2,
    delay: Millis(100),
};

/// A thread's seat and all the marks that it made.
type Journal<'a> = JournalSeat<SlotSeat<'a, Card>>;

/// Every fourth turn it purges.
fn purge_in<S: Seat<Card>>(seat: &mut S, turn: u32)
    ensures { (S.history seat.new).about ≡ (S.history seat.old).about }
{
    if turn % 4 == 3 {
        purge_at(seat, Millis(u64::from(turn).saturating_mul(50)));
    }
}

/// Every sixteenth turn it lets the server drain for a while.
fn drain_in<S: Seat<Card>>(seat: &mut S, turn: u32)
    ensures { (S.history seat.new).about ≡ (S.history seat.old).about }
{
    if turn % 16 == 15 {
        drain_for_a_while(seat);
    }
}

/// Lets the server drain for a while.
fn drain_for_a_while<S: Seat<Card>>(seat: &mut S)
    ensures { (S.history seat.new).about ≡ (S.history seat.old).about }
{
    seat.set_drain();
    for _ in 0..16u8 {
        drain_one(seat);
    }
    seat.set_ready();
}

/// Parks, takes from its own row and from the others; now and then it purges, and more seldom it drains.
fn work<S: Seat<Card>>(seat: &mut S, turns: u32)
    requires { (S.history seat.old).about.server ≡ record { 0 = 0 } }
    ensures { (S.history seat.new).about ≡ (S.history seat.old).about }
{
    for turn in 0..turns {
        park_new(seat, SESSION);
        use_own(seat, SESSION, turn % 2 == 0);
        use_other(seat, SESSION, turn % 3 == 0);
        purge_in(seat, turn);
        drain_in(seat, turn);
    }
}

/// Makes the turns of a thread. None: no memory.
fn make_turns(alloc: Global, seat: PlaceSeat<'_, Card>, turns: u32) -> Option<Journal<'_>>
    requires { IsFresh seat }
{
    let Ok(whole) = SlotSeat::new(alloc, seat) else {
        return None;
    };
    let mut journal = JournalSeat::new(alloc, whole);
    work(&mut journal, turns);
    Some(journal)
}

/// What came of all turns of all threads.
#[derive(Clone, Copy, PartialEq, Eq, Debug)]
pub(crate) struct Whole {
    /// How many connections were opened.
    pub(crate) opened: usize,
    /// Whether the marks of all threads stand in one history.
    pub(crate) is_one: bool,
    /// Whether each connection that was opened was closed.
    pub(crate) is_closed: bool,
    /// What the board's count says in the end.
    pub(crate) count: Option<u64>,
}

impl Whole {
    /// One history, in which all is closed, and nothing rests behind it.
    pub(crate) fn is_settled(&self) -> bool {
        self.is_one && self.is_closed && self.count == Some(0)
    }
}

/// Drains all that rests.
fn drain_all(seat: &mut Journal<'_>) {
    seat.set_drain();
    for _ in 0..1025u16 {
        if !drain_one(seat) {
            return;
        }
    }
}

/// Adds the marks of all threads. None: a thread had no memory for them.
fn add_all(
    alloc: Global,
    history: &mut History,
    journals: &[Option<Journal<'_>>],
) -> Result<(), NoMemory> {
    for journal in journals {
        let Some(journal) = journal else {
            return Err(NoMemory);
        };
        if !journal.is_whole() {
            return Err(NoMemory);
        }
        history.add(alloc, journal.marks())?;
    }
    Ok(())
}

fn sum_up(alloc: Global, mut journals: Vec<Option<Journal<'_>>>) -> Result<Whole, NoMemory> {
    let Some(Some(first)) = journals.first_mut() else {
        return Err(NoMemory);
    };
    drain_all(first);
    let count = count_below(first, SESSION);
    let mut history = History::new(alloc)?;
    add_all(alloc, &mut history, journals.as_slice())?;
    let is_one = history.is_one()?;
    Ok(Whole {
        opened: history.opened(),
        is_one,
        is_closed: history.is_closed(),
        count,
    })
}

/// Each of sixteen threads makes so many turns at a whole seat of one board, and then the first one drains it.
pub(crate) fn run_whole<R: Threads + Sync>(
    rt: &R,
    alloc: Global,
    turns: u32,
) -> Result<Whole, NoMemory> {
    let mut board = Board::<Card>::new(alloc, ServerNo(0), RULES, THREADS, Millis(0))?;
    let seats = fresh_seats_of(&mut board, alloc)?;
    let journals = map_vec(
        rt,
        seats,
        &|seat: PlaceSeat<'_, Card>|
            requires { IsFresh seat }
        { make_turns(alloc, seat, turns) },
    )?;
    sum_up(alloc, journals)
}
