//! The workers of a run, from their seats to their totals.
ghost use Rattle.hx_serve.specs.Runs.{IsServed, IsDone};

use crate::endings::Served;
use crate::report::totals_text;
use crate::seating::Seats;
use crate::threads::run_threads;
use hx_base::{NoMemory, Totals};
use hx_config::Config;
use hx_conn::Rested;
use hx_doors::Door;
use hx_handoff::Taker;
use hx_link::{Clock, Net, Sink, Source};
use hx_loop::{Carried, Ends, Hand, Lanes, OrdersEnd};
use hx_pool::Seat;
use hx_resting::NO_TOTALS;
use hx_startup::Ending;
use hx_worker::Worker;
use std::alloc::Global;
use std::sync::Wait;
use std::thread::Threads;

/// The worker of a net's thread.
fn hand_of<'a, S: Seat<Rested<N::L>>, N: Net>(
    alloc: Global,
    seats: Seats<'a, S>,
    net: &'a mut N,
    lane: Taker<'a, Carried<N::L>>,
) -> Result<Hand<'a, S, N>, NoMemory> {
    let (thread, config, seats) = seats.into_parts();
    // The nets are those of the threads, in order.
    if net.loop_no().0 != thread.0 {
        return Err(NoMemory);
    }
    let worker = Worker::new(alloc, thread, config, seats)?;
    Hand::new(alloc, worker, config, net, lane)
}

/// A worker for each row of seats, each with the net of its thread.
fn hands_of<'a, S: Seat<Rested<N::L>>, N: Net>(
    alloc: Global,
    rows: Vec<Seats<'a, S>>,
    nets: &'a mut [N],
    lanes: Vec<Taker<'a, Carried<N::L>>>,
) -> Result<Vec<Hand<'a, S, N>>, NoMemory> {
    let mut rows = rows;
    let mut lanes = lanes;
    let mut hands = Vec::new(alloc);
    for net in nets.iter_mut() {
        if rows.is_empty() || lanes.is_empty() {
            break;
        }
        let row = rows.remove(0);
        let lane = lanes.remove(0);
        hands.push(hand_of(alloc, row, net, lane)?)?;
    }
    Ok(hands)
}

/// The totals of no entry, for each server.
fn no_sums(alloc: Global, config: &Config) -> Result<Vec<Totals>, NoMemory> {
    let mut sums = Vec::new(alloc);
    for back in config.backs.as_slice() {
        for _ in 0..back.servers.as_slice().len() {
            sums.push(NO_TOTALS)?;
        }
    }
    Ok(sums)
}

/// The first worker drains each server, and the totals are told; or an admission had found no memory.
fn finish<S: Seat<Rested<N::L>>, N: Net>(
    alloc: Global,
    config: &Config,
    hands: Vec<Hand<'_, S, N>>,
) -> Result<Vec<u8>, NoMemory> {
    let mut hands = hands;
    if let Some(first) = hands.first_mut() {
        first.drain_all();
    }
    let mut sums = no_sums(alloc, config)?;
    let mut starved = false;
    for hand in hands {
        starved = starved || hand.starved;
        hand.add_totals(sums.as_mut_slice());
    }
    if starved {
        return Err(NoMemory);
    }
    totals_text(alloc, config, sums.as_slice())
}

/// The end of a run that was stopped.
fn done(text: Result<Vec<u8>, NoMemory>) -> Served
    ensures { IsDone result }
{
    match text {
        Ok(text) => Served::Ending(Ending::Done(text)),
        Err(_) => Served::Ending(Ending::NoMemory),
    }
}

/// Serves with these seats, where they were made, and these nets and lanes until a stop comes.
pub(crate) fn serve_with<
    'a,
    R: Threads + Wait + Sync,
    T: Seat<Rested<N::L>> + Send,
    N: Net + Send,
    D: Door<L = N::L> + Send,
    S: Source + Send,
    K: Sink + Send,
    C: Clock + Sync,
>(
    rt: &R,
    alloc: Global,
    config: &Config,
    made: Result<(), NoMemory>,
    rows: Vec<Seats<'a, T>>,
    ends: Ends<'a, N::L>,
    nets: &'a mut [N],
    orders: &mut S,
    door: &mut D,
    clock: &C,
    sink: &mut K,
) -> Result<Served, NoMemory>
where
    N::L: Send,
    ensures { IsServed (S.state orders.old) (S.state orders.new) (K.state sink.old) (K.state sink.new) result }
{
    made?;
    let Ends {
        door: givers,
        orders: mut others,
        workers,
    } = ends;
    let count = rows.len();
    let mut hands = hands_of(alloc, rows, nets, workers)?;
    if hands.len() != count || others.is_empty() {
        return Err(NoMemory);
    }
    let mut lane = others.remove(0);
    let mut lanes = Lanes::new(givers);
    let end = run_threads(
        rt, alloc, config, &mut hands, &mut lanes, door, orders, sink, &mut lane, clock,
    );
    Ok(match end {
        OrdersEnd::SourceFault => Served::Ending(Ending::SourceFault),
        OrdersEnd::SinkFault => Served::SinkFault,
        OrdersEnd::NoMemory => Served::Ending(Ending::NoMemory),
        OrdersEnd::Stop | OrdersEnd::Over => done(finish(alloc, config, hands)),
    })
}
