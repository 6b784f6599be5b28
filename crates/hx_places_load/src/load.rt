//! Sixteen threads at one board.
ghost use Rattle.std.specs.Prelude.{◌≡◌};
ghost use Rattle.hx_places_load.specs.Resting.{IsAtRest};

use crate::card::Card;
use crate::worker::{Parked, Worker, seats_of};
use hx_base::{Face, Millis, Mode, NoMemory, PlaceNo, PoolRules, ServerNo};
use hx_places::{Board, PlaceSeat};
use hx_pool::Found;
use std::alloc::Global;
use std::thread::{Threads, map_vec};

/// How many threads there are.
const THREADS: u8 = 16;

/// How many places of each row are used.
const PLACES: u8 = 8;

/// At most so many rest, fewer than the places that are used.
const RULES: PoolRules = PoolRules {
    mode: Mode::Always,
    max: Some(40),
    low: 0,
    delay: Millis(5000),
};

/// One rest of a connection: its number and its uses.
type Rest = (u64, u16);

fn rest_of(face: Face) -> Rest {
    (face.id.0, face.uses)
}

/// What one thread does, and what came of it.
#[derive(Drop)]
struct Shift<'a> {
    worker: Worker<'a>,
    /// Each rest that it began.
    parked: Vec<Rest>,
    /// Each rest that it ended.
    met: Vec<Rest>,
    opened: u64,
    closed: u64,
    /// How many takes found another word than the look before.
    lost: u64,
    /// How many parks were refused, for want of room or by a drain.
    refused: u64,
    /// Whether memory ran out.
    starved: bool,
}

impl<'a> Shift<'a> {
    fn begin(alloc: Global, worker: Worker<'a>) -> Shift<'a> {
        Shift {
            worker,
            parked: Vec::new(alloc),
            met: Vec::new(alloc),
            opened: 0,
            closed: 0,
            lost: 0,
            refused: 0,
            starved: false,
        }
    }

    fn note_parked(&mut self, face: Face) {
        if self.parked.push(rest_of(face)).is_err() {
            self.starved = true;
        }
    }

    fn note_met(&mut self, face: Face) {
        if self.met.push(rest_of(face)).is_err() {
            self.starved = true;
        }
    }

    fn close(&mut self) {
        if self.worker.close().is_some() {
            self.closed = self.closed.saturating_add(1);
        }
    }

    /// The first of its own places that a look shows vacant.
    fn first_vacant(&mut self) -> Option<u8> {
        for place in 0..PLACES {
            let at = self.worker.own_place(place);
            if self.worker.look(at) == Some(Found::Empty) {
                return Some(place);
            }
        }
        None
    }

    /// Parks what it has, or closes it.
    fn let_rest(&mut self) {
        let Some(place) = self.first_vacant() else {
            self.close();
            return;
        };
        match self.worker.park(place) {
            Parked::Rests(face) => self.note_parked(face),
            Parked::Back(face) => {
                self.note_parked(face);
                self.note_met(face);
                self.close();
            }
            Parked::Refused => {
                self.refused = self.refused.saturating_add(1);
                self.close();
            }
        }
    }

    /// Takes what rests at the place, if something does.
    fn take_at(&mut self, at: PlaceNo) -> bool {
        let Some(Found::Resting(face)) = self.worker.look(at) else {
            return false;
        };
        if self.worker.take(at, face).is_ok() {
            self.note_met(face);
            return true;
        }
        self.lost = self.lost.saturating_add(1);
        false
    }

    /// Takes the first that it finds, from the row behind its own on.
    fn take_next(&mut self) -> bool {
        let own = self.worker.own_place(0).row;
        for step in 0..u32::from(THREADS) * u32::from(PLACES) {
            let row = (u32::from(own) + 1 + step / u32::from(PLACES)) % u32::from(THREADS);
            let at = PlaceNo {
                row: row as u8,
                place: (step % u32::from(PLACES)) as u8,
            };
            if self.take_at(at) {
                return true;
            }
        }
        false
    }

    /// Opens and parks one; then takes two and lets them rest again, or the first one alone, and closes the second.
    fn turn(&mut self, both: bool) {
        if self.worker.open().is_some() {
            self.opened = self.opened.saturating_add(1);
        }
        self.let_rest();
        if self.take_next() {
            self.let_rest();
        }
        if self.take_next() {
            if both {
                self.let_rest();
            } else {
                self.close();
            }
        }
    }

    /// Now and then the first thread sets the server draining, and ready again.
    fn drain_for_a_while(&mut self, turn: u32) {
        if self.worker.own_place(0).row == 0 && turn % 16 == 15 {
            self.worker.set_draining(true);
            self.worker.raise(u64::from(turn));
            self.worker.set_draining(false);
        }
    }

    fn work(&mut self, turns: u32) {
        for turn in 0..turns {
            self.turn(turn % 3 == 0);
            self.drain_for_a_while(turn);
        }
    }
}

fn make_shift(alloc: Global, seat: PlaceSeat<'_, Card>, turns: u32) -> Shift<'_>
    requires { IsAtRest seat }
{
    let mut shift = Shift::begin(alloc, Worker::new(seat));
    shift.work(turns);
    shift
}

/// What came of all turns of all threads.
#[derive(Drop)]
pub(crate) struct Load {
    pub(crate) opened: u64,
    pub(crate) closed: u64,
    pub(crate) refused: u64,
    pub(crate) lost: u64,
    /// What the board's count says in the end.
    pub(crate) count: u64,
    /// How many rest in the end.
    pub(crate) left: u64,
    /// Each rest that began, and each that ended or is left.
    pub(crate) parked: Vec<Rest>,
    pub(crate) met: Vec<Rest>,
}

impl Load {
    /// Each rest ended once or is left, and no two are alike; what was opened was closed once or is left; the count is
    /// what is left.
    pub(crate) fn is_whole(&self) -> bool {
        is_rising(self.parked.as_slice())
            && self.parked.as_slice() == self.met.as_slice()
            && self.opened == self.closed.saturating_add(self.left)
            && self.count == self.left
    }
}

/// Whether each is above the one before.
fn is_rising(rests: &[Rest]) -> bool {
    let mut last = (0, 0);
    for rest in rests {
        if *rest <= last {
            return false;
        }
        last = *rest;
    }
    true
}

/// Adds what rests in the end.
fn add_left(load: &mut Load, worker: &mut Worker<'_>) -> Result<(), NoMemory> {
    for place in 0..u16::from(THREADS) * 64 {
        let at = PlaceNo {
            row: (place / 64) as u8,
            place: (place % 64) as u8,
        };
        if let Some(Found::Resting(face)) = worker.look(at) {
            load.left = load.left.saturating_add(1);
            load.met.push(rest_of(face))?;
        }
    }
    load.count = worker.count();
    Ok(())
}

fn add_shift(load: &mut Load, shift: &Shift<'_>) -> Result<(), NoMemory> {
    if shift.starved {
        return Err(NoMemory);
    }
    load.opened = load.opened.saturating_add(shift.opened);
    load.closed = load.closed.saturating_add(shift.closed);
    load.refused = load.refused.saturating_add(shift.refused);
    load.lost = load.lost.saturating_add(shift.lost);
    load.parked.extend_from_slice(shift.parked.as_slice())?;
    load.met.extend_from_slice(shift.met.as_slice())?;
    Ok(())
}

fn sum_up(alloc: Global, shifts: Vec<Shift<'_>>) -> Result<Load, NoMemory> {
    let mut load = Load {
        opened: 0,
        closed: 0,
        refused: 0,
        lost: 0,
        count: 0,
        left: 0,
        parked: Vec::new(alloc),
        met: Vec::new(alloc),
    };
    let mut shifts = shifts;
    for shift in shifts.iter() {
        add_shift(&mut load, shift)?;
    }
    if let Some(first) = shifts.first_mut() {
        add_left(&mut load, &mut first.worker)?;
    }
    load.parked.sort_unstable();
    load.met.sort_unstable();
    Ok(load)
}

/// Each of sixteen threads makes so many turns at one board.
pub(crate) fn run<R: Threads + Sync>(rt: &R, alloc: Global, turns: u32) -> Result<Load, NoMemory> {
    let mut board = Board::<Card>::new(alloc, ServerNo(0), RULES, THREADS, Millis(0))?;
    let seats = seats_of(&mut board, alloc)?;
    let shifts = map_vec(
        rt,
        seats,
        &|seat: PlaceSeat<'_, Card>|
            requires { IsAtRest seat }
        { make_shift(alloc, seat, turns) },
    )?;
    sum_up(alloc, shifts)
}
