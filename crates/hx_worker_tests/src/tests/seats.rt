//! Seats of one thread, for a bench.
ghost use Rattle.std.specs.Prelude.{◌≡◌, IfOk, map};
ghost use Rattle.hx_config.specs.Limits.{all_servers};
ghost use Rattle.hx_pool.specs.Journal.{Journal};
ghost use Rattle.hx_worker_tests.specs.Begins.{BeginsFor, BeginFor};

use crate::tests::bench::Bench;
use hx_base::{Millis, NoMemory, ServerNo};
use hx_config::{Config, Server, read_config};
use hx_conn::Rested;
use hx_link::{MemoryLink, Plan};
use hx_plain::PlainSeat;
use hx_pool::{Entry, JournalSeat};
use std::alloc::Global;

/// A seat of one thread, and the marks of its calls.
pub(crate) type StoredSeat = JournalSeat<PlainSeat<Rested<MemoryLink>>>;

/// A bench over such seats.
pub(crate) type PlainBench<'a> = Bench<'a, StoredSeat>;

fn seat_of(alloc: Global, server: &Server) -> Result<StoredSeat, NoMemory>
    ensures begins { IfOk result (λ j. BeginsFor server.now j.history) }
{
    let seat = PlainSeat::new(alloc, server.no, server.rules, Millis(0))?;
    Ok(JournalSeat::new(alloc, seat))
}

/// A seat for each server of the configuration, in order.
#[tactic(auto, using(crate::proofs::Begun::begin_more, crate::proofs::Begun::begin_all))]
fn seats_of(alloc: Global, config: &Config) -> Result<Vec<StoredSeat>, NoMemory>
    ensures begin { IfOk result (λ seats. BeginFor (all_servers config.now.backs) (map (λ (j : Journal). j.history) seats.items)) }
{
    let mut seats = Vec::new(alloc);
    let mut at = 0;
    while let Some(server) = config.server(ServerNo(at)) {
        seats.push(seat_of(alloc, server)?)?;
        at += 1;
    }
    Ok(seats)
}

/// A bench before its first call.
pub(crate) fn plain_bench(
    alloc: Global,
    config: &Config,
    plans: Vec<Plan>,
) -> Result<PlainBench<'_>, &'static str> {
    match seats_of(alloc, config) {
        Ok(seats) => Bench::new(alloc, config, seats, plans),
        Err(_) => Err("no memory for the seats"),
    }
}

/// The configuration that a text gives.
pub(crate) fn config_of(alloc: Global, text: &[u8]) -> Result<Config, &'static str> {
    read_config(alloc, text).map_err(|_| "the configuration has no fault")
}

/// All marks of a server's seat. None are told where it isn't there, or where one was left out.
pub(crate) fn seat_marks(seats: &[StoredSeat], server: usize) -> &[Entry] {
    if server >= seats.len() || !seats[server].is_whole() {
        return &[];
    }
    seats[server].marks()
}
