//! The program that listens: it makes the adapters of the machine's sockets, files and clock, and serves with them.
#![tactic(auto)]

use hx_base::ThreadNo;
use hx_link::{Reading, Writing};
use hx_proxy_parts::{FileCabinet, MachineClock, SockDoor, SockNet};
use hx_serve::serve_main;
use std::process::ExitCode;
use std::{env, io};

/// How many threads may be asked for.
const THREADS: u8 = 16;

/// How many links a thread's loop has room for.
const ROOM: usize = 8192;

/// What is answered where the adapters can't be made.
const NO_ADAPTERS: u8 = 9;

/// The words after the program's name.
fn words(rt: &HostRuntime) -> io::Result<Vec<String>> {
    let mut words = Vec::new(rt.alloc());
    for word in env::args(rt)?.skip(1) {
        words.push(word)?;
    }
    Ok(words)
}

/// The words, a net for each thread, and the door that wakes them.
#[derive(Drop)]
struct Outside<R> {
    words: Vec<String>,
    nets: Vec<SockNet<R>>,
    door: SockDoor<R>,
}

fn make_outside(rt: &HostRuntime) -> io::Result<Outside<&HostRuntime>> {
    let alloc = rt.alloc();
    let words = words(rt)?;
    let mut nets = Vec::new(alloc);
    let mut wakers = Vec::new(alloc);
    for thread in 0..THREADS {
        let net = SockNet::new(rt, alloc, ThreadNo(thread), ROOM)?;
        wakers.push(net.waker()?)?;
        nets.push(net)?;
    }
    let door = SockDoor::new(rt, alloc, wakers)?;
    Ok(Outside { words, nets, door })
}

/// Standard input has the orders, and standard output is the sink.
fn main(rt: HostRuntime) -> ExitCode {
    let Ok(outside) = make_outside(&rt) else {
        return ExitCode::from(NO_ADAPTERS);
    };
    let Outside {
        words,
        mut nets,
        mut door,
    } = outside;
    let mut cabinet = FileCabinet::new(&rt);
    let mut orders = Reading::new(rt.stdin());
    let mut sink = Writing::new(rt.stdout());
    let clock = MachineClock::new(&rt);
    ExitCode::from(serve_main(
        &rt,
        rt.alloc(),
        words.as_slice(),
        &mut cabinet,
        &mut orders,
        &mut door,
        nets.as_mut_slice(),
        &clock,
        &mut sink,
    ))
}
