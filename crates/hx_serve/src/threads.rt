//! The threads of a run, under fork calls that can't be refused.
ghost use Rattle.std.specs.Prelude.{IfSome};
ghost use Rattle.hx_loop.specs.Orders.{EndsFor};

use hx_config::Config;
use hx_conn::Rested;
use hx_doors::Door;
use hx_handoff::Giver;
use hx_link::{Clock, Link, Net, Sink, Source};
use hx_loop::{Carried, Hand, Lanes, OrdersEnd, run_orders};
use hx_pool::Seat;
use std::alloc::Global;
use std::sync::Wait;
use std::sync::atomic::AtomicU64;
use std::thread::{Threads, for_each_mut, join, join_mut};

/// Each worker serves on a thread of its own.
fn work_all<R: Threads + Wait + Sync, S: Seat<Rested<N::L>> + Send, N: Net + Send, C: Clock + Sync>(
    rt: &R,
    hands: &mut [Hand<'_, S, N>],
    clock: &C,
)
where
    N::L: Send,
{
    let threads = hands.len();
    if threads > 0 {
        for_each_mut(rt, hands, threads, &|_, hand| hand.serve(rt, clock));
    }
}

/// The workers, and a thread at the door.
fn work_at_door<
    R: Threads + Wait + Sync,
    S: Seat<Rested<N::L>> + Send,
    N: Net + Send,
    D: Door<L = N::L> + Send,
    C: Clock + Sync,
>(
    rt: &R,
    hands: &mut Vec<Hand<'_, S, N>>,
    lanes: &mut Lanes<'_, N::L>,
    door: &mut D,
    clock: &C,
    stopped: &AtomicU64,
)
where
    N::L: Send,
{
    join(
        rt,
        || work_all(rt, hands.as_mut_slice(), clock),
        || lanes.serve(rt, door, stopped),
    );
}

/// Makes a call in a thread, and another one in this thread. It says what the first one leaves in its captures.
fn beside<R: Threads, F: FnMut() -> A + Send, G: FnOnce(), A: Send>(rt: &R, f: &mut F, g: G) -> A
    requires first { F.pre f.old }
    requires second { G.pre g }
    ensures { F.step f.old result f.new }
{
    let mut rest = Some(g);
    let mut call = ||
        requires { IfSome rest (λ g. G.pre g) }
    {
        if let Some(g) = rest.take() {
            g();
        }
    };
    let (a, ()) = join_mut(rt, f, &mut call);
    a
}

/// A thread that reads orders, and another call in this one. It says how the orders ended.
fn orders_beside<
    R: Threads + Wait + Sync,
    O: Source + Send,
    K: Sink + Send,
    L: Link + Send,
    G: FnOnce(),
>(
    rt: &R,
    alloc: Global,
    config: &Config,
    orders: &mut O,
    sink: &mut K,
    lane: &mut Giver<'_, Carried<L>>,
    stopped: &AtomicU64,
    call: G,
) -> OrdersEnd
    requires { G.pre call }
    ensures { EndsFor (O.state orders.old) (O.state orders.new) (K.state sink.old) (K.state sink.new) result }
{
    beside(
        rt,
        &mut || run_orders(rt, alloc, config, orders, sink, lane, stopped),
        call,
    )
}

/// The workers, a thread at the door, and one that reads orders. It ends once all have ended, and says how the orders did.
pub(crate) fn run_threads<
    R: Threads + Wait + Sync,
    S: Seat<Rested<N::L>> + Send,
    N: Net + Send,
    D: Door<L = N::L> + Send,
    O: Source + Send,
    K: Sink + Send,
    C: Clock + Sync,
>(
    rt: &R,
    alloc: Global,
    config: &Config,
    hands: &mut Vec<Hand<'_, S, N>>,
    lanes: &mut Lanes<'_, N::L>,
    door: &mut D,
    orders: &mut O,
    sink: &mut K,
    lane: &mut Giver<'_, Carried<N::L>>,
    clock: &C,
) -> OrdersEnd
where
    N::L: Send,
    ensures { EndsFor (O.state orders.old) (O.state orders.new) (K.state sink.old) (K.state sink.new) result }
{
    let stopped = AtomicU64::new(0);
    let working = || work_at_door(rt, hands, lanes, door, clock, &stopped);
    orders_beside(rt, alloc, config, orders, sink, lane, &stopped, working)
}
