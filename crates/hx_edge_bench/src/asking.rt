//! A connection of the load, which sends a request and waits for its whole answer.

use crate::heads::head_length;
use crate::session::{Step, send, take_in};
use hx_base::{Millis, NoMemory};
use hx_link::Pipe;
use hx_proxy_parts::SockLink;
use std::alloc::Global;

/// Where it stands.
#[derive(Clone, Copy, PartialEq, Eq)]
enum Phase {
    /// It has sent so many bytes of the request.
    Sending(usize),
    /// It waits for the end of a head.
    Head,
    /// So many bytes of the body are to come.
    Body(usize),
    /// It asks no more.
    Resting,
}

#[derive(Drop)]
pub struct Asking {
    pub server: SockLink,
    taken: Pipe,
    phase: Phase,
    body: usize,
    /// It asks again after each answer.
    goes: bool,
}

impl Asking {
    /// It makes one exchange of a body of that length.
    pub fn new(alloc: Global, server: SockLink, body: usize) -> Result<Asking, NoMemory> {
        Ok(Asking {
            server,
            taken: Pipe::new(alloc, 18_432)?,
            phase: Phase::Sending(0),
            body,
            goes: false,
        })
    }

    /// It asks again and again from now on.
    pub fn go_on(&mut self) {
        self.goes = true;
        self.phase = Phase::Sending(0);
    }

    pub fn step(&mut self, request: &[u8], now: Millis) -> Step {
        match self.phase {
            Phase::Sending(sent) => self.send(request, sent, now),
            Phase::Head => self.read_head(now),
            Phase::Body(left) => self.read_body(left, now),
            Phase::Resting => Step::Rests,
        }
    }

    fn send(&mut self, request: &[u8], sent: usize, now: Millis) -> Step {
        let mut sent = sent;
        let step = send(&mut self.server, now, request, &mut sent);
        if step == Step::Passed {
            self.phase = Phase::Head;
            return Step::Moved;
        }
        self.phase = Phase::Sending(sent);
        step
    }

    fn read_head(&mut self, now: Millis) -> Step {
        let step = take_in(&mut self.server, now, &mut self.taken);
        match head_length(self.taken.whole()) {
            Some(count) => {
                self.taken.drop_front(count.min(self.taken.len()));
                self.drop_body(self.body)
            }
            None => step,
        }
    }

    fn read_body(&mut self, left: usize, now: Millis) -> Step {
        let step = take_in(&mut self.server, now, &mut self.taken);
        if step == Step::Moved {
            self.drop_body(left)
        } else {
            step
        }
    }

    /// Drops what was taken of the body.
    fn drop_body(&mut self, left: usize) -> Step {
        let count = self.taken.len().min(left);
        self.taken.drop_front(count);
        if count < left {
            self.phase = Phase::Body(left - count);
            return Step::Moved;
        }
        self.phase = if self.goes {
            Phase::Sending(0)
        } else {
            Phase::Resting
        };
        Step::Passed
    }
}
