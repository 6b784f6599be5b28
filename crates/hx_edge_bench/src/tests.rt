//! What no clause says of the edge: that its calls return and succeed, and what comes over loopback.

mod edges;
mod lanes;
mod links;
mod memory;
mod takeovers;

use hx_base::{Address, ConnId, Host, Millis, ServerNo, SessionNo, ThreadNo};
use hx_doors::{Accepted, Door};
use hx_link::{Got, Link, Net};
use hx_proxy_parts::{SockDoor, SockLink, SockNet};
use std::alloc::Global;
use std::test::Fail;

/// The moment of each call.
const NOW: Millis = Millis(1);

/// The first port that is tried. The machine gives none of these by itself.
const FIRST_PORT: u16 = 21_000;

/// How many are tried.
const PORTS: u16 = 5000;

fn at_port(port: u16) -> Address {
    Address {
        host: Host::Local,
        port,
    }
}

/// Listens at a port that is free, from that one on, and tells it.
fn listen_from<D: Door>(door: &mut D, first: u16) -> Option<Address> {
    for port in first..first.saturating_add(PORTS) {
        if door.listen(3, &at_port(port)).is_ok() {
            return Some(at_port(port));
        }
    }
    None
}

/// The client that comes next, within some seconds.
fn next_client<D: Door<L = SockLink>>(door: &mut D) -> Option<(u16, SockLink)> {
    for _ in 0..50 {
        if let Accepted::Client(front, link) = door.accept(Millis(100)) {
            return Some((front, link));
        }
    }
    None
}

/// A net, and both ends of a connection that it dialled at a door: its link, and the client that the door gave.
fn connect<R: std::net::Net + Drop + Copy>(
    rt: R,
    alloc: Global,
) -> Result<(SockNet<R>, SockLink, SockLink), Fail> {
    let mut net = SockNet::new(rt, alloc, ThreadNo(0), 64)?;
    let mut door = SockDoor::new(rt, alloc, Vec::new(alloc))?;
    let there = listen_from(&mut door, FIRST_PORT).ok_or("no port is free")?;
    let link = net.dial(ServerNo(0), &there, ConnId(1), NOW)?;
    let (_, peer) = next_client(&mut door).ok_or("no client came")?;
    Ok((net, link, peer))
}

/// Attaches a link for a session, and says whether it did.
fn attach_for<N: Net<L = SockLink>>(net: &mut N, link: &mut SockLink, session: SessionNo) -> bool {
    net.attach_for(session);
    net.detach(link);
    net.attach(link).is_ok()
}

/// Lets a net report what is there already. A link that was registered tells that it may be written.
fn settle<N: Net>(net: &mut N) {
    for _ in 0..4 {
        net.pause(Millis(20));
    }
}

/// Reads once the net has reported the link, within some seconds.
fn read_soon<N: Net>(net: &mut N, link: &mut SockLink, into: &mut [u8; 8]) -> Got {
    for _ in 0..50 {
        let got = link.read(NOW, into);
        if got != Got::NotYet {
            return got;
        }
        net.pause(Millis(100));
    }
    Got::NotYet
}
