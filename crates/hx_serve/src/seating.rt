//! The boards of the servers, and a seat at each for every worker.
ghost use Rattle.std.specs.Prelude.{◌≡◌, ◌≤◌, true, IfOk, map};
ghost use Rattle.hx_config.specs.Limits.{all_servers, HasThreads};
ghost use Rattle.hx_serve.specs.Begins.{BeginFor, BeginsFor, IsNew};

use crate::fresh::Fresh;
use hx_base::{Faced, Millis, NoMemory, ServerNo, ThreadNo};
use hx_config::{Config, Server};
use hx_places::{Board, PlaceSeat};
use hx_pool::HasHistory;
use hx_purge::SlotSeat;
use std::alloc::Global;
use std::marker::Model;

/// When rounds are counted from.
const START: Millis = Millis(0);

/// The seats of one worker on their way to it, by server.
pub(crate) type Row<'a, V> = Vec<Fresh<'a, V>>;

/// A board for each server, in order.
pub(crate) fn boards_of<V: Faced>(
    alloc: Global,
    config: &Config,
    threads: u8,
) -> Result<Vec<Board<V>>, NoMemory>
    requires threads { HasThreads threads }
{
    let mut boards = Vec::new(alloc);
    for back in config.backs.as_slice() {
        for server in back.servers.as_slice() {
            boards.push(Board::new(alloc, server.no, server.rules, threads, START)?)?;
        }
    }
    Ok(boards)
}

/// The whole seat of a thread, of its new seat of a board to that server.
fn fresh_of<'a, V: Faced>(
    alloc: Global,
    seat: PlaceSeat<'a, V>,
    server: ServerNo,
) -> Result<Fresh<'a, V>, NoMemory>
    requires new { IsNew server seat }
{
    let thread = seat.thread();
    let rules = seat.rules();
    let seat = SlotSeat::new(alloc, seat)?;
    Ok(Fresh {
        seat,
        thread,
        server,
        rules,
    })
}

/// Hands the seats of one board to the workers.
fn hand_out<'a, V: Faced>(
    alloc: Global,
    board: &'a mut Board<V>,
    rows: &mut [Row<'a, V>],
) -> Result<(), NoMemory> {
    // A board gives its seats once, and this one is new.
    let given = board.given;
    if given != 0 {
        return Err(NoMemory);
    }
    let server = board.terms.server;
    let mut seats = board.seats(alloc)?;
    while let Some(seat) = seats.pop() {
        let fresh = fresh_of(alloc, seat, server)?;
        if let Some(row) = rows.get_mut(fresh.thread.0 as usize) {
            row.push(fresh)?;
        }
    }
    Ok(())
}

/// The rows of the workers' seats.
fn rows_of<'a, V: Faced>(
    alloc: Global,
    boards: &'a mut [Board<V>],
    threads: u8,
) -> Result<Vec<Row<'a, V>>, NoMemory> {
    let mut rows = Vec::new(alloc);
    for _ in 0..threads {
        rows.push(Vec::new(alloc))?;
    }
    for board in boards.iter_mut() {
        hand_out(alloc, board, rows.as_mut_slice())?;
    }
    Ok(rows)
}

/// Whether a seat is of that thread and that server.
fn is_for<V: Faced>(fresh: &Fresh<'_, V>, thread: ThreadNo, server: &Server) -> bool
    ensures fits { result ≡ true → BeginsFor thread server.now.no server.now.rules fresh.now.seat.history }
{
    fresh.thread == thread && fresh.server == server.no && fresh.rules == server.rules
}

/// The next seat of a row, which is that of the thread at the server.
fn next_seat<'a, V: Faced>(
    row: &mut Row<'a, V>,
    thread: ThreadNo,
    server: &Server,
) -> Result<SlotSeat<'a, V>, NoMemory>
    ensures { IfOk result (λ s. BeginsFor thread server.now.no server.now.rules s.history) }
{
    if row.is_empty() {
        return Err(NoMemory);
    }
    let fresh = row.remove(0);
    if is_for(&fresh, thread, server) {
        let Fresh { seat, .. } = fresh;
        Ok(seat)
    } else {
        Err(NoMemory)
    }
}

/// The seats of a worker: one of its thread for each server, in order. Those of its row are.
#[tactic(auto, using(crate::proofs::Beginning::begin_more, crate::proofs::Beginning::begin_all))]
pub(crate) fn seats_of<'a, V: Faced>(
    alloc: Global,
    config: &Config,
    thread: ThreadNo,
    row: Row<'a, V>,
) -> Result<Vec<SlotSeat<'a, V>>, NoMemory>
    ensures begin { IfOk result (λ seats. BeginFor thread (all_servers config.now.backs) (map (λ s. s.history) seats.items)) }
{
    let mut row = row;
    let mut seats = Vec::new(alloc);
    let mut at = 0;
    while let Some(server) = config.server(ServerNo(at)) {
        seats.push(next_seat(&mut row, thread, server)?)?;
        at += 1;
    }
    Ok(seats)
}

/// The seats of one worker, at which nothing has happened: one of its thread for each server of the configuration.
#[derive(Drop)]
pub(crate) struct Seats<'a, S: HasHistory> {
    thread: ThreadNo,
    config: &'a Config,
    seats: Vec<S>,
}

impl<'a, S: HasHistory> Model for Seats<'a, S> {
    ghost use Rattle.std.specs.Prelude.{map};
    ghost use Rattle.hx_config.specs.Limits.{all_servers};
    ghost use Rattle.hx_config.specs.Views.{meaning};
    ghost use Rattle.hx_serve.specs.Begins.{BeginFor, SeatsNow, seats_now};

    ghost Value = { SeatsNow };

    ghost view = { λ s. seats_now s.thread (meaning s.config.now) (map S.history s.seats.items) };

    ghost invariant = { λ s. BeginFor s.thread (all_servers s.config.now.backs) (map S.history s.seats.items) };
}

impl<'a, S: HasHistory> Seats<'a, S> {
    /// Their parts.
    pub(crate) fn into_parts(self) -> (ThreadNo, &'a Config, Vec<S>)
        ensures begin { BeginFor result.0 (all_servers result.1.now.backs) (map S.history result.2.items) }
    {
        let Seats {
            thread,
            config,
            seats,
        } = self;
        (thread, config, seats)
    }
}

/// Adds the seats of a worker.
fn add_seats<'a, S: HasHistory + Drop>(
    all: &mut Vec<Seats<'a, S>>,
    thread: ThreadNo,
    config: &'a Config,
    seats: Vec<S>,
) -> Result<(), NoMemory>
    requires begin { BeginFor thread (all_servers config.now.backs) (map S.history seats.items) }
{
    all.push(Seats {
        thread,
        config,
        seats,
    })?;
    Ok(())
}

/// Adds the seats of each worker, in order of the threads.
pub(crate) fn seats_by_worker<'a, V: Faced>(
    alloc: Global,
    config: &'a Config,
    boards: &'a mut [Board<V>],
    threads: u8,
    all: &mut Vec<Seats<'a, SlotSeat<'a, V>>>,
) -> Result<(), NoMemory> {
    let mut rows = rows_of(alloc, boards, threads)?;
    for thread in 0..threads {
        if rows.is_empty() {
            return Err(NoMemory);
        }
        let thread = ThreadNo(thread);
        let seats = seats_of(alloc, config, thread, rows.remove(0))?;
        add_seats(all, thread, config, seats)?;
    }
    Ok(())
}
