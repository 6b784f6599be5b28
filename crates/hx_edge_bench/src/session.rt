//! What has a connection, and does one thing a step.

use crate::answering::Answering;
use crate::asking::Asking;
use crate::passing::Passing;
use crate::servers::Servers;
use hx_base::Millis;
use hx_link::{Got, Link, Net, Pipe, Put, read_into, write_from};
use hx_proxy_parts::SockLink;

/// What a step did.
#[derive(Clone, Copy, PartialEq, Eq)]
pub enum Step {
    Moved,
    /// It moved, and an exchange is over.
    Passed,
    Rests,
    Over,
}

/// One connection and what is done with it.
#[derive(Drop)]
pub enum Session {
    Passing(Passing),
    Answering(Answering),
    Asking(Asking),
}

impl Session {
    /// The texts are the request and the answer that are sent.
    pub fn step<N: Net<L = SockLink>>(
        &mut self,
        net: &mut N,
        servers: &mut Servers,
        text: &[u8],
        now: Millis,
    ) -> Step {
        match self {
            Session::Passing(passing) => passing.step(net, servers, now),
            Session::Answering(answering) => answering.step(text, now),
            Session::Asking(asking) => asking.step(text, now),
        }
    }

    /// Buries its links.
    pub fn end<N: Net<L = SockLink>>(self, net: &mut N) {
        match self {
            Session::Passing(passing) => passing.end(net),
            Session::Answering(answering) => net.bury(answering.client),
            Session::Asking(asking) => net.bury(asking.server),
        }
    }
}

/// Reads once into a pipe, as much as it has room for.
pub fn take_in(link: &mut SockLink, now: Millis, into: &mut Pipe) -> Step {
    if into.room() == 0 {
        return Step::Over;
    }
    match read_into(link, now, into) {
        Got::Bytes(_) => Step::Moved,
        Got::NotYet => Step::Rests,
        Got::End | Got::Failed => Step::Over,
    }
}

/// Writes once from a pipe.
pub fn give_out(link: &mut SockLink, now: Millis, from: &mut Pipe) -> Step {
    if from.len() == 0 {
        return Step::Moved;
    }
    match write_from(link, now, from) {
        Put::Bytes(_) => Step::Moved,
        Put::NotYet => Step::Rests,
        Put::Failed => Step::Over,
    }
}

/// Writes once what is left of a text behind its first bytes, and counts what was taken.
pub fn send(link: &mut SockLink, now: Millis, text: &[u8], sent: &mut usize) -> Step {
    let from = (*sent).min(text.len());
    if from == text.len() {
        return Step::Passed;
    }
    match link.write(now, &text[from..]) {
        Put::Bytes(n) => {
            *sent = from.saturating_add(n);
            Step::Moved
        }
        Put::NotYet => Step::Rests,
        Put::Failed => Step::Over,
    }
}
