//! The seats of the one thread.
ghost use Rattle.std.specs.Prelude.{◌≡◌, true, All, IfOk, map};
ghost use Rattle.hx_config.specs.Limits.{all_servers};
ghost use Rattle.hx_pool.specs.Journal.{Journal};
ghost use Rattle.hx_run.specs.Begins.{BeginsFor, BeginFor};

use hx_base::{Millis, NoMemory, ServerNo};
use hx_config::{Config, Server};
use hx_conn::Rested;
use hx_link::MemoryLink;
use hx_plain::PlainSeat;
use hx_pool::JournalSeat;
use std::alloc::Global;

/// When rounds are counted from.
const START: Millis = Millis(0);

/// A seat of the one thread, and the marks of its calls.
pub type RunSeat = JournalSeat<PlainSeat<Rested<MemoryLink>>>;

/// A seat for the server, whose journal begins with it.
fn seat_of(alloc: Global, server: &Server) -> Result<RunSeat, NoMemory>
    ensures begins { IfOk result (λ j. BeginsFor server.now j.history) }
    ensures whole { IfOk result (λ j. j.whole ≡ true) }
{
    let seat = PlainSeat::new(alloc, server.no, server.rules, START)?;
    Ok(JournalSeat::new(alloc, seat))
}

/// A seat for each server of the configuration, in order.
#[tactic(auto, using(crate::proofs::Beginning::begin_more, crate::proofs::Beginning::begin_all))]
pub(crate) fn seats_of(alloc: Global, config: &Config) -> Result<Vec<RunSeat>, NoMemory>
    ensures begin { IfOk result (λ seats. BeginFor (all_servers config.now.backs) (map (λ (j : Journal). j.history) seats.items)) }
    ensures whole { IfOk result (λ seats. All (λ (j : Journal). j.whole ≡ true) seats.items) }
{
    let mut seats = Vec::new(alloc);
    let mut at = 0;
    while let Some(server) = config.server(ServerNo(at)) {
        seats.push(seat_of(alloc, server)?)?;
        at += 1;
    }
    Ok(seats)
}
