//! The thread that reads orders: lines of a source, each of which is answered where it is no order.
ghost use Rattle.hx_loop.specs.Orders.{EndsFor, OnEnd, OnLine};

use crate::guest::Carried;
use crate::orders_end::OrdersEnd;
use hx_base::{Order, ServerNo};
use hx_config::{Config, Server};
use hx_handoff::{Errand, Giver, LaneFull};
use hx_link::{Got, Link, Sink, Source, write_all};
use std::alloc::Global;
use std::sync::Wait;
use std::sync::atomic::{AtomicU64, Ordering};

/// What a line says.
#[derive(Clone, Copy, PartialEq, Eq)]
enum Said {
    Stop,
    Run(Order),
    Unknown,
}

/// How many bytes a read asks for.
const CHUNK: usize = 512;

/// What stands behind a word.
fn behind<'a>(line: &'a [u8], word: &[u8]) -> Option<&'a [u8]> {
    if line.len() >= word.len() && &line[..word.len()] == word {
        Some(&line[word.len()..])
    } else {
        None
    }
}

/// Whether the text is the name of the backend and that of the server, with a slash between them.
fn is_named(text: &[u8], back: &[u8], server: &[u8]) -> bool {
    match behind(text, back) {
        Some(rest) => match behind(rest, b"/") {
            Some(name) => name == server,
            None => false,
        },
        None => false,
    }
}

/// The server of that name in one backend.
fn server_in(text: &[u8], back: &[u8], servers: &[Server]) -> Option<ServerNo> {
    for server in servers {
        if is_named(text, back, server.name.as_slice()) {
            return Some(server.no);
        }
    }
    None
}

/// The server of a name with its backend's.
fn server_of(config: &Config, text: &[u8]) -> Option<ServerNo> {
    for back in config.backs.as_slice() {
        let found = server_in(text, back.name.as_slice(), back.servers.as_slice());
        if found.is_some() {
            return found;
        }
    }
    None
}

/// What a line says, without its end.
fn said_by(config: &Config, line: &[u8]) -> Said {
    if line == b"stop".as_slice() {
        return Said::Stop;
    }
    if let Some(text) = behind(line, b"drain ")
        && let Some(server) = server_of(config, text)
    {
        return Said::Run(Order::Drain(server));
    }
    if let Some(text) = behind(line, b"ready ")
        && let Some(server) = server_of(config, text)
    {
        return Said::Run(Order::Ready(server));
    }
    Said::Unknown
}

/// Hands an order to the first worker, once its lane has room.
fn hand<R: Wait, L: Link>(rt: &R, lane: &mut Giver<'_, Carried<L>>, order: Order) {
    for _ in rt.forever() {
        match lane.hand(rt, Errand::Run(order)) {
            Ok(()) => break,
            Err(LaneFull(_)) => {}
        }
    }
}

/// Does what a line says. It says how the orders end, if they do.
fn obey<R: Wait, K: Sink, L: Link>(
    rt: &R,
    config: &Config,
    line: &[u8],
    sink: &mut K,
    lane: &mut Giver<'_, Carried<L>>,
) -> Option<OrdersEnd>
    ensures { OnLine (K.state sink.old) (K.state sink.new) result }
{
    match said_by(config, line) {
        Said::Stop => Some(OrdersEnd::Stop),
        Said::Run(order) => {
            hand(rt, lane, order);
            None
        }
        Said::Unknown => match write_all(sink, b"unknown order\n") {
            Ok(()) => None,
            Err(_) => Some(OrdersEnd::SinkFault),
        },
    }
}

/// Takes bytes of orders, and does what each line says that ends among them.
fn take<R: Wait, K: Sink, L: Link>(
    rt: &R,
    config: &Config,
    line: &mut Vec<u8>,
    bytes: &[u8],
    sink: &mut K,
    lane: &mut Giver<'_, Carried<L>>,
) -> Option<OrdersEnd>
    ensures { OnLine (K.state sink.old) (K.state sink.new) result }
{
    for byte in bytes {
        if *byte == b'\n' {
            let end = obey(rt, config, line.as_slice(), sink, lane);
            if end.is_some() {
                return end;
            }
            line.clear();
        } else if line.push(*byte).is_err() {
            return Some(OrdersEnd::NoMemory);
        }
    }
    None
}

/// The last line, which may lack its end.
fn take_last<R: Wait, K: Sink, L: Link>(
    rt: &R,
    config: &Config,
    line: &[u8],
    sink: &mut K,
    lane: &mut Giver<'_, Carried<L>>,
) -> OrdersEnd
    ensures { OnEnd (K.state sink.old) (K.state sink.new) result }
{
    if line.is_empty() {
        return OrdersEnd::Over;
    }
    match obey(rt, config, line, sink, lane) {
        Some(end) => end,
        None => OrdersEnd::Over,
    }
}

/// Reads orders until they end.
fn read_orders<R: Wait, S: Source, K: Sink, L: Link>(
    rt: &R,
    alloc: Global,
    config: &Config,
    orders: &mut S,
    sink: &mut K,
    lane: &mut Giver<'_, Carried<L>>,
) -> OrdersEnd
    ensures { EndsFor (S.state orders.old) (S.state orders.new) (K.state sink.old) (K.state sink.new) result }
{
    let mut line = Vec::new(alloc);
    let mut buffer = [0u8; CHUNK];
    for _ in rt.forever() {
        match orders.read(&mut buffer) {
            Got::Bytes(n) => {
                if let Some(end) = take(rt, config, &mut line, &buffer[..n], sink, lane) {
                    return end;
                }
            }
            Got::End => return take_last(rt, config, line.as_slice(), sink, lane),
            Got::NotYet | Got::Failed => return OrdersEnd::SourceFault,
        }
    }
    unreachable!()
}

/// Reads orders, and lets the run stop once one says so, or they fail. Their end is no stop.
pub fn run_orders<R: Wait, S: Source, K: Sink, L: Link>(
    rt: &R,
    alloc: Global,
    config: &Config,
    orders: &mut S,
    sink: &mut K,
    lane: &mut Giver<'_, Carried<L>>,
    stopped: &AtomicU64,
) -> OrdersEnd
    ensures { EndsFor (S.state orders.old) (S.state orders.new) (K.state sink.old) (K.state sink.new) result }
{
    let end = read_orders(rt, alloc, config, orders, sink, lane);
    if end != OrdersEnd::Over {
        stopped.store(1, Ordering::SeqCst);
    }
    end
}
