//! A client of the origin, whose requests are all answered alike.

use crate::heads::head_length;
use crate::session::{Step, send, take_in};
use hx_base::{Millis, NoMemory};
use hx_link::Pipe;
use hx_proxy_parts::SockLink;
use std::alloc::Global;

#[derive(Drop)]
pub struct Answering {
    pub client: SockLink,
    asks: Pipe,
    /// A request was read and isn't wholly answered.
    asked: bool,
    /// How many bytes of the answer were sent.
    sent: usize,
}

impl Answering {
    pub fn new(alloc: Global, client: SockLink) -> Result<Answering, NoMemory> {
        Ok(Answering {
            client,
            asks: Pipe::new(alloc, 16_384)?,
            asked: false,
            sent: 0,
        })
    }

    /// Reads a request up to the end of its head, or sends of the answer.
    pub fn step(&mut self, answer: &[u8], now: Millis) -> Step {
        if !self.asked {
            return self.read(now);
        }
        let step = send(&mut self.client, now, answer, &mut self.sent);
        if step == Step::Passed {
            self.asked = false;
            self.sent = 0;
        }
        step
    }

    fn read(&mut self, now: Millis) -> Step {
        let step = take_in(&mut self.client, now, &mut self.asks);
        if let Some(count) = head_length(self.asks.whole()) {
            self.asks.drop_front(count.min(self.asks.len()));
            self.asked = true;
        }
        step
    }
}
