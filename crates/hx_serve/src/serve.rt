//! The program over any net, door, cabinet, orders, clock and sink.
ghost use Rattle.std.specs.Prelude.{◌≡◌, ◌⊎◌};
ghost use Rattle.hx_base.specs.Counts.{Rose};
ghost use Rattle.hx_startup.specs.Options.{words_of, TakesWords, AsksCheck};
ghost use Rattle.hx_serve.specs.Runs.{IsServed, Closes, IsRefused, IsToldOf, WasServed};

use crate::crew::serve_with;
use crate::endings::Served;
use crate::seating::{boards_of, seats_by_worker};
use hx_base::NoMemory;
use hx_conn::Rested;
use hx_doors::{Cabinet, Door};
use hx_link::{Clock, Net, Sink, Source};
use hx_loop::{Ends, ends_of, lanes_of};
use hx_places::Board;
use hx_startup::{Ending, Plan, Start, end, start_up};
use std::alloc::Global;
use std::sync::Wait;
use std::thread::Threads;

/// Serves a plan at these boards and over the lanes of these ends until a stop comes.
fn serve_at<
    'a,
    R: Threads + Wait + Sync,
    N: Net + Send,
    D: Door<L = N::L> + Send,
    S: Source + Send,
    K: Sink + Send,
    C: Clock + Sync,
>(
    rt: &'a R,
    alloc: Global,
    plan: &'a Plan,
    boards: &'a mut [Board<Rested<N::L>>],
    ends: Ends<'a, N::L>,
    nets: &'a mut [N],
    orders: &mut S,
    door: &mut D,
    clock: &C,
    sink: &mut K,
) -> Result<Served, NoMemory>
where
    N::L: Send,
    ensures { IsServed (S.state orders.old) (S.state orders.new) (K.state sink.old) (K.state sink.new) result }
{
    let config = &plan.config;
    let mut rows = Vec::new(alloc);
    let made = seats_by_worker(alloc, config, boards, plan.threads, &mut rows);
    serve_with(
        rt, alloc, config, made, rows, ends, nets, orders, door, clock, sink,
    )
}

/// Serves a plan until a stop comes.
fn serve<
    R: Threads + Wait + Sync,
    N: Net + Send,
    D: Door<L = N::L> + Send,
    S: Source + Send,
    K: Sink + Send,
    C: Clock + Sync,
>(
    rt: &R,
    alloc: Global,
    plan: &Plan,
    orders: &mut S,
    door: &mut D,
    nets: &mut [N],
    clock: &C,
    sink: &mut K,
) -> Result<Served, NoMemory>
where
    N::L: Send,
    ensures { IsServed (S.state orders.old) (S.state orders.new) (K.state sink.old) (K.state sink.new) result }
{
    let mut boards = boards_of(alloc, &plan.config, plan.threads)?;
    let mut all = lanes_of(alloc, plan.threads)?;
    let ends = ends_of(alloc, all.as_mut_slice())?;
    serve_at(
        rt,
        alloc,
        plan,
        boards.as_mut_slice(),
        ends,
        nets,
        orders,
        door,
        clock,
        sink,
    )
}

/// Writes what is due at the end, unless the sink failed before.
fn close<K: Sink>(sink: &mut K, served: Result<Served, NoMemory>) -> u8
    ensures { Closes served (K.state sink.old) (K.state sink.new) result }
{
    match served {
        Ok(Served::Ending(ending)) => end(sink, &ending),
        Ok(Served::SinkFault) => 3,
        Err(_) => end(sink, &Ending::NoMemory),
    }
}

/// The program. The words, without the program's name, are `--config NAME`, `--threads N` and `--check`.
///
/// A check prints a line for each line of the configuration that is passed over, and that it holds. Else the door listens
/// at each address of the configuration, each client is handed to the workers in turn, and orders are read: `drain BACKEND/SERVER`,
/// `ready BACKEND/SERVER`, `stop`. A stop ends the run and prints a line of totals for each server.
///
/// It answers the status: 0 checked, or stopped; 1 the words aren't those of the command; 2 the cabinet or the orders
/// failed; 3 the sink failed; 4 the configuration has a fault; 5 the door failed while it began to listen; 9 want of memory.
pub fn serve_main<
    R: Threads + Wait + Sync,
    N: Net + Send,
    D: Door<L = N::L> + Send,
    F: Cabinet,
    S: Source + Send,
    K: Sink + Send,
    C: Clock + Sync,
>(
    rt: &R,
    alloc: Global,
    words: &[String],
    cabinet: &mut F,
    orders: &mut S,
    door: &mut D,
    nets: &mut [N],
    clock: &C,
    sink: &mut K,
) -> u8
where
    N::L: Send,
    ensures usage { result ≡ 1 → TakesWords (words_of words.now) → ⊥ }
    ensures source { result ≡ 2 → Rose (F.state cabinet.old).faults (F.state cabinet.new).faults
        ⊎ Rose (S.state orders.old).faults (S.state orders.new).faults }
    ensures sink { result ≡ 3 → Rose (K.state sink.old).faults (K.state sink.new).faults }
    ensures config { result ≡ 4 → IsRefused (words_of words.now) (F.state cabinet.old) (F.state cabinet.new) (K.state sink.old) (K.state sink.new) }
    ensures listening { result ≡ 5 → Rose (D.state door.old).faults (D.state door.new).faults }
    ensures check { result ≡ 0 → AsksCheck (words_of words.now)
        → IsToldOf (words_of words.now) (F.state cabinet.old) (F.state cabinet.new) (K.state sink.old) (K.state sink.new) }
    ensures stopped { result ≡ 0 → (AsksCheck (words_of words.now) → ⊥)
        → WasServed (words_of words.now) (F.state cabinet.old) (F.state cabinet.new) }
    ensures known { (result ≡ 0) ⊎ (result ≡ 1) ⊎ (result ≡ 2) ⊎ (result ≡ 3) ⊎ (result ≡ 4) ⊎ (result ≡ 5) ⊎ (result ≡ 9) }
{
    match start_up(alloc, words, cabinet, door) {
        Start::Over(ending) => end(sink, &ending),
        Start::Serve(plan) => {
            let served = serve(rt, alloc, &plan, orders, door, nets, clock, sink);
            close(sink, served)
        }
    }
}
