//! A benchmark of the adapters: a loop that passes requests and answers between kept connections, a plain origin and a plain
//! load. It is run by hand.
#![tactic(auto)]

mod answering;
mod asking;
mod heads;
mod passing;
mod servers;
mod session;
mod settings;
#[cfg(test)]
mod tests;
mod turns;

use hx_base::{Address, Host, Millis, ThreadNo};
use hx_doors::Door;
use hx_link::Clock;
use hx_proxy_parts::{MachineClock, SockDoor, SockNet};
use settings::{Role, Settings, settings_of};
use std::{env, io};
use turns::Turns;

/// What it prints without words that it knows.
const USAGE: &str =
    "usage: hx_edge_bench pass|origin|load PORT [SERVER [SECONDS [REQUEST [BODY [CLIENTS [IDLE]]]]]]";

/// How many links a loop has room for.
const ROOM: usize = 8192;

fn main(rt: HostRuntime) -> io::Result<()> {
    let mut words = Vec::new(rt.alloc());
    for word in env::args(&rt)?.skip(1) {
        words.push(word)?;
    }
    match settings_of(words.as_slice()) {
        None => println!(rt; "{USAGE}"),
        Some(settings) if settings.role == Role::Load => load(&rt, settings),
        Some(settings) => serve(&rt, settings),
    }
}

/// Serves clients until its time is over, and prints what it did.
fn serve(rt: &HostRuntime, settings: Settings) -> io::Result<()> {
    let clock = MachineClock::new(rt);
    let mut net = SockNet::new(rt, rt.alloc(), ThreadNo(0), ROOM)?;
    let mut door = SockDoor::new(rt, rt.alloc(), Vec::new(rt.alloc()))?;
    let here = Address {
        host: Host::Local,
        port: settings.port,
    };
    if door.listen(0, &here).is_err() {
        return println!(rt; "listen fault");
    }
    let mut turns = Turns::new(rt.alloc(), settings)?;
    turns.serve(&clock, &mut net, &mut door);
    println!(rt;
        "exchanges {} turns {} dials {}",
        turns.passed, turns.turns, turns.servers.dials
    )
}

/// Dials all its connections and makes an exchange on each. Then it says so, waits for a line of standard input, and goes on
/// with those that aren't idle until its time is over.
fn load(rt: &HostRuntime, settings: Settings) -> io::Result<()> {
    let mut net = SockNet::new(rt, rt.alloc(), ThreadNo(0), ROOM)?;
    let mut turns = Turns::new(rt.alloc(), settings)?;
    let first = MachineClock::new(rt);
    let all = turns.dial_all(&mut net) && turns.ask_once(&first, &mut net);
    if !all {
        return println!(rt; "a connection failed");
    }
    println!(rt; "ready")?;
    let mut line = String::new(rt.alloc());
    rt.read_line(&mut line)?;
    let clock = MachineClock::new(rt);
    let exchanges = turns.ask_on(&clock, &mut net);
    let Millis(millis) = clock.now();
    println!(rt; "exchanges {exchanges} milliseconds {millis}")
}
