//! The connections to the server that rest, and how one is found.

use hx_base::{Address, ConnId, Host, Millis, ServerNo};
use hx_link::{Got, Link, Net};
use hx_proxy_parts::SockLink;
use std::alloc::{AllocError, Global};

/// The resting connections to one server.
#[derive(Drop)]
pub struct Servers {
    there: Address,
    resting: Vec<SockLink>,
    pub dials: u64,
}

impl Servers {
    pub fn new(alloc: Global, port: u16) -> Result<Servers, AllocError> {
        Ok(Servers {
            there: Address {
                host: Host::Local,
                port,
            },
            resting: Vec::with_capacity(alloc, 4096)?,
            dials: 0,
        })
    }

    /// The connection that rested last, or a new one. It is attached.
    pub fn find<N: Net<L = SockLink>>(&mut self, net: &mut N, now: Millis) -> Option<SockLink> {
        let link = match self.take(net, now) {
            Some(link) => link,
            None => self.dial(net, now)?,
        };
        attach(net, link)
    }

    /// A connection that rests, if the probe of one finds nothing.
    fn take<N: Net<L = SockLink>>(&mut self, net: &mut N, now: Millis) -> Option<SockLink> {
        let mut link = self.resting.pop()?;
        let mut byte = [0; 1];
        if link.read(now, &mut byte) == Got::NotYet {
            Some(link)
        } else {
            net.bury(link);
            None
        }
    }

    pub fn dial<N: Net<L = SockLink>>(&mut self, net: &mut N, now: Millis) -> Option<SockLink> {
        self.dials = self.dials.saturating_add(1);
        net.dial(ServerNo(0), &self.there, ConnId(1), now).ok()
    }

    /// The connection rests from now on.
    pub fn keep<N: Net<L = SockLink>>(&mut self, net: &mut N, mut link: SockLink) {
        net.detach(&mut link);
        if let Err(left) = self.resting.push(link) {
            net.bury(left.value);
        }
    }
}

/// Attaches a link, or buries it. One that isn't attached is detached for nothing.
pub fn attach<N: Net<L = SockLink>>(net: &mut N, mut link: SockLink) -> Option<SockLink> {
    net.detach(&mut link);
    if net.attach(&mut link).is_ok() {
        Some(link)
    } else {
        net.bury(link);
        None
    }
}
