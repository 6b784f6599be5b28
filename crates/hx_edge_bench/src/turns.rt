//! The loop: one thread, its sessions, and turns in which those with news are stepped.

use crate::answering::Answering;
use crate::asking::Asking;
use crate::heads::{answer, request};
use crate::passing::Passing;
use crate::servers::{Servers, attach};
use crate::session::{Session, Step};
use crate::settings::{Role, Settings};
use hx_base::{Millis, NoMemory, SessionNo};
use hx_doors::{Accepted, Door};
use hx_link::{Clock, Net};
use hx_proxy_parts::SockLink;
use std::alloc::{AllocError, Global};

/// How long a pause is at most, and how often the door is asked, in milliseconds.
const PAUSE: u64 = 20;

/// The most steps of a session in a turn. One that is cut off there is stepped again in the next turn, since nothing new may be
/// reported of it.
const MOST_STEPS: u32 = 64;

/// The most clients and the most news of a turn.
const MOST_NEWS: u32 = 4096;

/// How long the first exchanges may take, in milliseconds.
const MOST_WAIT: u64 = 20_000;

#[derive(Drop)]
pub struct Turns {
    alloc: Global,
    settings: Settings,
    /// What is sent: the request of a load, or the answer of an origin.
    text: Vec<u8>,
    /// The session of number n stands at n - 1.
    sessions: Vec<Option<Session>>,
    pub servers: Servers,
    /// Where sessions stand that were cut off.
    again: Vec<usize>,
    /// How many exchanges are over.
    pub passed: u64,
    pub turns: u64,
}

/// The number of the session at that place.
fn number_of(at: usize) -> SessionNo {
    SessionNo((at.min(1_000_000) + 1) as u32)
}

impl Turns {
    pub fn new(alloc: Global, settings: Settings) -> Result<Turns, AllocError> {
        let text = if settings.role == Role::Load {
            request(alloc, settings.request)?
        } else {
            answer(alloc, settings.body)?
        };
        let port = if settings.role == Role::Load {
            settings.port
        } else {
            settings.server
        };
        Ok(Turns {
            alloc,
            settings,
            text,
            sessions: Vec::with_capacity(alloc, 4096)?,
            servers: Servers::new(alloc, port)?,
            again: Vec::new(alloc),
            passed: 0,
            turns: 0,
        })
    }

    /// Steps one session until it rests.
    fn step_one<N: Net<L = SockLink>>(&mut self, net: &mut N, at: usize, now: Millis) {
        let mut last = Step::Rests;
        net.attach_for(number_of(at));
        if let Some(Some(session)) = self.sessions.get_mut(at) {
            for _ in 0..MOST_STEPS {
                last = session.step(net, &mut self.servers, self.text.as_slice(), now);
                match last {
                    Step::Moved => {}
                    Step::Passed => self.passed = self.passed.saturating_add(1),
                    Step::Rests | Step::Over => break,
                }
            }
        }
        let cut_off = last == Step::Moved || last == Step::Passed;
        if last == Step::Over || cut_off && !self.keep(at) {
            self.remove(net, at);
        }
    }

    /// Notes that a session was cut off, and says whether it did.
    fn keep(&mut self, at: usize) -> bool {
        self.again.contains(&at) || self.again.push(at).is_ok()
    }

    fn remove<N: Net<L = SockLink>>(&mut self, net: &mut N, at: usize) {
        if let Some(place) = self.sessions.get_mut(at)
            && let Some(session) = place.take()
        {
            session.end(net);
        }
    }

    /// Where a new session is to stand.
    fn free_place(&self) -> usize {
        for (i, place) in self.sessions.iter().enumerate() {
            if place.is_none() {
                return i;
            }
        }
        self.sessions.len()
    }

    fn session_of(&self, link: SockLink) -> Result<Session, NoMemory> {
        let alloc = self.alloc;
        let body = self.settings.body;
        match self.settings.role {
            Role::Pass => Ok(Session::Passing(Passing::new(alloc, link, body)?)),
            Role::Origin => Ok(Session::Answering(Answering::new(alloc, link)?)),
            Role::Load => Ok(Session::Asking(Asking::new(alloc, link, body)?)),
        }
    }

    /// Makes a session of a link, steps it, and says whether it did.
    fn admit<N: Net<L = SockLink>>(&mut self, net: &mut N, link: SockLink, now: Millis) -> bool {
        let at = self.free_place();
        net.attach_for(number_of(at));
        let Some(link) = attach(net, link) else {
            return false;
        };
        let Ok(session) = self.session_of(link) else {
            return false;
        };
        if let Some(place) = self.sessions.get_mut(at) {
            *place = Some(session);
        } else if self.sessions.push(Some(session)).is_err() {
            return false;
        }
        self.step_one(net, at, now);
        true
    }

    /// Waits for news, and steps the sessions that were cut off and those with news.
    fn turn<N: Net<L = SockLink>, C: Clock>(&mut self, clock: &C, net: &mut N) {
        self.turns = self.turns.saturating_add(1);
        let again = self.again.len();
        net.pause(Millis(if again > 0 { 0 } else { PAUSE }));
        let now = clock.now();
        for _ in 0..again {
            if !self.again.is_empty() {
                let at = self.again.remove(0);
                self.step_one(net, at, now);
            }
        }
        for _ in 0..MOST_NEWS {
            let Some(session) = net.next_news() else {
                return;
            };
            self.step_one(net, session.0.saturating_sub(1) as usize, now);
        }
    }

    /// Admits the clients that wait.
    fn ask_door<N: Net<L = SockLink>, D: Door<L = SockLink>>(
        &mut self,
        net: &mut N,
        door: &mut D,
        now: Millis,
    ) {
        for _ in 0..MOST_NEWS {
            match door.accept(Millis(0)) {
                Accepted::Client(_, link) => {
                    self.admit(net, link, now);
                }
                Accepted::NotYet | Accepted::Failed => return,
            }
        }
    }

    /// Serves clients until the time of the settings is over.
    pub fn serve<N: Net<L = SockLink>, D: Door<L = SockLink>, C: Clock>(
        &mut self,
        clock: &C,
        net: &mut N,
        door: &mut D,
    ) {
        let end = self.settings.seconds.saturating_mul(1000);
        let mut next = 0;
        for _ in 0..u64::MAX {
            let now = clock.now();
            if now.0 >= end {
                return;
            }
            if now.0 >= next {
                next = now.0.saturating_add(PAUSE);
                self.ask_door(net, door, now);
            }
            self.turn(clock, net);
        }
    }

    /// Opens all connections of a load, the idle ones first, and says whether it did.
    pub fn dial_all<N: Net<L = SockLink>>(&mut self, net: &mut N) -> bool {
        let all = self.settings.idle.saturating_add(self.settings.clients);
        for _ in 0..all {
            let Some(link) = self.servers.dial(net, Millis(0)) else {
                return false;
            };
            if !self.admit(net, link, Millis(0)) {
                return false;
            }
        }
        true
    }

    /// Waits for the first exchange of each connection, and says whether they all came.
    pub fn ask_once<N: Net<L = SockLink>, C: Clock>(&mut self, clock: &C, net: &mut N) -> bool {
        let all = self.settings.idle.saturating_add(self.settings.clients) as u64;
        for _ in 0..u64::MAX {
            if self.passed >= all {
                return true;
            }
            if clock.now().0 >= MOST_WAIT {
                return false;
            }
            self.turn(clock, net);
        }
        false
    }

    /// Goes on with the connections that aren't idle until the time is over, and answers how many exchanges they made.
    pub fn ask_on<N: Net<L = SockLink>, C: Clock>(&mut self, clock: &C, net: &mut N) -> u64 {
        let before = self.passed;
        for at in self.settings.idle..self.sessions.len() {
            if let Some(Some(Session::Asking(asking))) = self.sessions.get_mut(at) {
                asking.go_on();
            }
            self.step_one(net, at, Millis(0));
        }
        let end = self.settings.seconds.saturating_mul(1000);
        for _ in 0..u64::MAX {
            if clock.now().0 >= end {
                break;
            }
            self.turn(clock, net);
        }
        self.passed.saturating_sub(before)
    }
}
