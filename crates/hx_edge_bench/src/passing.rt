//! A client of the loop, and a connection to the server while an exchange is under way.

use crate::heads::head_length;
use crate::servers::Servers;
use crate::session::{Step, give_out, take_in};
use hx_base::{Millis, NoMemory};
use hx_link::{Net, Pipe};
use hx_proxy_parts::SockLink;
use std::alloc::Global;

/// Where an exchange stands.
#[derive(Clone, Copy, PartialEq, Eq)]
enum Phase {
    /// The client's request is read.
    Asking,
    /// It goes to the server.
    Sending,
    /// The head of the answer is read.
    Answering,
    /// So many bytes of the body are to be read.
    Giving(usize),
}

#[derive(Drop)]
pub struct Passing {
    client: SockLink,
    server: Option<SockLink>,
    asks: Pipe,
    to_server: Pipe,
    from_server: Pipe,
    to_client: Pipe,
    phase: Phase,
    body: usize,
}

/// Moves the first bytes, as many as fit, and answers how many.
fn shift(from: &mut Pipe, to: &mut Pipe, count: usize) -> usize {
    let most = from.len().min(count);
    let bytes = from.whole();
    let taken = to.fill(&bytes[..most.min(bytes.len())]);
    let taken = taken.min(from.len());
    from.drop_front(taken);
    taken
}

impl Passing {
    /// Its answers have bodies of that length.
    pub fn new(alloc: Global, client: SockLink, body: usize) -> Result<Passing, NoMemory> {
        Ok(Passing {
            client,
            server: None,
            asks: Pipe::new(alloc, 16_384)?,
            to_server: Pipe::new(alloc, 18_432)?,
            from_server: Pipe::new(alloc, 18_432)?,
            to_client: Pipe::new(alloc, 18_432)?,
            phase: Phase::Asking,
            body,
        })
    }

    pub fn step<N: Net<L = SockLink>>(
        &mut self,
        net: &mut N,
        servers: &mut Servers,
        now: Millis,
    ) -> Step {
        match self.phase {
            Phase::Asking => self.ask(net, servers, now),
            Phase::Sending => self.send(now),
            Phase::Answering => self.answer(now),
            Phase::Giving(left) => self.give(net, servers, left, now),
        }
    }

    /// Reads of a request. Once its head is there a connection is found for it.
    fn ask<N: Net<L = SockLink>>(
        &mut self,
        net: &mut N,
        servers: &mut Servers,
        now: Millis,
    ) -> Step {
        let step = take_in(&mut self.client, now, &mut self.asks);
        let Some(count) = head_length(self.asks.whole()) else {
            return step;
        };
        shift(&mut self.asks, &mut self.to_server, count);
        self.server = servers.find(net, now);
        self.phase = Phase::Sending;
        if self.server.is_some() {
            Step::Moved
        } else {
            Step::Over
        }
    }

    /// Sends of the request.
    fn send(&mut self, now: Millis) -> Step {
        let Some(server) = &mut self.server else {
            return Step::Over;
        };
        let step = give_out(server, now, &mut self.to_server);
        if self.to_server.len() == 0 {
            self.phase = Phase::Answering;
        }
        step
    }

    /// Reads of the answer until its head is there.
    fn answer(&mut self, now: Millis) -> Step {
        let Some(server) = &mut self.server else {
            return Step::Over;
        };
        let step = take_in(server, now, &mut self.from_server);
        let Some(count) = head_length(self.from_server.whole()) else {
            return step;
        };
        shift(&mut self.from_server, &mut self.to_client, count);
        self.phase = Phase::Giving(self.body);
        Step::Moved
    }

    /// Moves of the body: gives what is at hand, else reads. The connection rests once all was given.
    fn give<N: Net<L = SockLink>>(
        &mut self,
        net: &mut N,
        servers: &mut Servers,
        left: usize,
        now: Millis,
    ) -> Step {
        let moved = shift(&mut self.from_server, &mut self.to_client, left);
        let left = left.saturating_sub(moved);
        self.phase = Phase::Giving(left);
        if self.to_client.len() > 0 {
            return give_out(&mut self.client, now, &mut self.to_client);
        }
        if left > 0 {
            return match &mut self.server {
                Some(server) => take_in(server, now, &mut self.from_server),
                None => Step::Over,
            };
        }
        if let Some(link) = self.server.take() {
            servers.keep(net, link);
        }
        self.phase = Phase::Asking;
        Step::Passed
    }

    /// Buries its links.
    pub fn end<N: Net<L = SockLink>>(self, net: &mut N) {
        let Passing { client, server, .. } = self;
        net.bury(client);
        if let Some(link) = server {
            net.bury(link);
        }
    }
}
