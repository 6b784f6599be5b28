//! A link that mirrors the load: a client's end gives the requests of its session, a server's end answers what it is sent.
ghost use Rattle.std.specs.Prelude.{◌≡◌, ◌<◌, ◌≤◌, ◌-◌, ◌++◌, [], ℕ, List, Some, None, IfOk, IsSome, OnErr, OnOk, OnSome, length, take, drop, min, option_map, true, false};
ghost use Rattle.hx_link.specs.Told.{IsCounted, most_bytes};
ghost use Rattle.hx_link.specs.Sources.{GotFits};
ghost use Rattle.hx_link.specs.Links.{LinkReads, ReadKeepsLimit};
ghost use Rattle.hx_link.specs.declared.answers.Got.TheVariants as got;
ghost use Rattle.hx_drill_parts.specs.Load.{client_text};
ghost use Rattle.hx_drill_parts.specs.Mirrors.{IsMirror, StaysEnd, client_end, server_end, with_loop, MayPass, IsHeard};

use crate::counts::{Counts, Owner};
use crate::gate::Turnstile;
use crate::heard::{Heard, next_request};
use crate::load::Load;
use crate::text::{answer, answers_of, requests_of};
use hx_base::{ConnId, Millis, NoMemory, ServerNo, ThreadNo};
use hx_link::{Got, Link, Put};
use std::alloc::Global;
use std::marker::Model;

/// The most bytes that are taken of a link, and the most that are sent on it.
const MOST_BYTES: usize = 9_223_372_036_854_775_807;

/// Before the first call.
const NO_COUNTS: Counts = Counts {
    faults: 0,
    read_waits: 0,
    read_wait_at: 0,
    read_waited: false,
    read_length: 0,
    write_length: 0,
    finished: false,
    on_loop: None,
};

/// Keeps all bytes that are sent on it and all that it gave. A client's end has the requests of its session to give; a
/// server's end the answers to the requests that were sent on it, the first one of a session once the gate lets it.
#[derive(Drop)]
pub struct MirrorLink<'a, T: Turnstile> {
    gate: &'a T,
    owner: Owner,
    counts: Counts,
    sent: Vec<u8>,
    gives: Vec<u8>,
    /// How many bytes were taken.
    taken: usize,
    /// How many of those sent were answered.
    answered: usize,
}

impl<'a, T: Turnstile> Model for MirrorLink<'a, T> {
    ghost use Rattle.hx_drill_parts.specs.Mirrors.{MirrorNow, mirror_now, IsMirror};

    ghost Value = { MirrorNow T };

    ghost view = { λ m. mirror_now m.counts m.owner m.taken m.answered m.sent.items m.gives.items m.gate.now };

    ghost invariant = { λ m. IsMirror T.shuts (mirror_now m.counts m.owner m.taken m.answered m.sent.items m.gives.items
        m.gate.now) };
}

/// Copies what fits, and at most so many bytes.
fn give(bytes: &[u8], from: usize, most: usize, into: &mut [u8]) -> usize
    requires inside { from ≤ length bytes.now }
    ensures count { result ≡ min (min (length bytes.now - from) (length into.old)) most }
    ensures given { take result into.new ≡ take result (drop from bytes.now) }
{
    let n = (bytes.len() - from).min(into.len()).min(most);
    into[..n].copy_from_slice(&bytes[from..from + n]);
    n
}

/// Whether a request may be answered: it isn't the first one of its session, or the gate lets it.
fn may_pass<T: Turnstile>(gate: &T, heard: &Heard) -> bool
    ensures { result ≡ true → MayPass (T.shuts gate.now) heard.now.ask }
{
    heard.ask.number != 0 || gate.may_answer(heard.ask.session)
}

impl<'a, T: Turnstile> MirrorLink<'a, T> {
    /// The end of the client that makes that session of the load. It has room for all answers, so that a write to it takes
    /// no memory.
    ///
    /// # Errors
    /// `NoMemory`.
    pub fn client(
        alloc: Global,
        gate: &'a T,
        load: Load,
        session: u32,
    ) -> Result<MirrorLink<'a, T>, NoMemory>
        ensures begins { IfOk result (λ m. m ≡ client_end gate.now session (client_text load.start session)) }
    {
        let gives = requests_of(alloc, load, session)?;
        let answers = answers_of(alloc, load, session)?;
        let sent = Vec::with_capacity(alloc, answers.len())?;
        Ok(MirrorLink {
            gate,
            owner: Owner::Client(session),
            counts: NO_COUNTS,
            sent,
            gives,
            taken: 0,
            answered: 0,
        })
    }

    /// The end of a server, as a dial gives it.
    pub(crate) fn server(
        alloc: Global,
        gate: &'a T,
        server: ServerNo,
        id: ConnId,
    ) -> MirrorLink<'a, T>
        ensures begins { result ≡ server_end gate.now server id }
    {
        MirrorLink {
            gate,
            owner: Owner::Server(server, id),
            counts: NO_COUNTS,
            sent: Vec::new(alloc),
            gives: Vec::new(alloc),
            taken: 0,
            answered: 0,
        }
    }

    /// The session whose client's end it is. None: a server's.
    pub fn session(&self) -> Option<u32>
        ensures session { result ≡ self.now.client }
        ensures mirrors { IsMirror T.shuts self.now }
    {
        match self.owner {
            Owner::Client(session) => Some(session),
            Owner::Server(_, _) => None,
        }
    }

    /// All bytes that were sent on it.
    pub fn sent(&self) -> &[u8]
        ensures sent { result.now ≡ self.now.sent }
    {
        self.sent.as_slice()
    }

    /// All bytes that were taken of it.
    pub fn taken(&self) -> &[u8]
        ensures taken { Some result.now ≡ self.now.state.taken }
    {
        &self.gives[..self.taken]
    }

    /// Attaches it to the loop of that thread, or to none.
    pub(crate) fn set_loop(&mut self, on_loop: Option<ThreadNo>)
        ensures { self.new ≡ with_loop (option_map (λ t. t.0) on_loop) self.old }
    {
        self.counts.on_loop = on_loop;
    }

    /// Answers a request that was heard behind those that were answered.
    fn answer_one(&mut self, heard: Heard) -> Result<(), NoMemory>
        requires heard { IsHeard (drop self.old.answered self.old.sent) heard.ask heard.length }
        requires pass { MayPass (T.shuts self.old.gate) heard.ask }
        requires server { self.old.client ≡ None }
        ensures state { self.new.state ≡ self.old.state }
        ensures stays { StaysEnd self.old self.new }
    {
        let text = answer(*self.sent.allocator(), &heard.ask, false)?;
        self.gives.extend_from_slice(text.as_slice())?;
        self.answered += heard.length;
        Ok(())
    }

    /// A server's end that gave all that it had answers the next request, if it is there and the gate lets it.
    fn answer_next(&mut self) -> Result<(), NoMemory>
        ensures state { self.new.state ≡ self.old.state }
        ensures stays { StaysEnd self.old self.new }
    {
        if self.session().is_some() || self.taken < self.gives.len() {
            return Ok(());
        }
        match next_request(*self.sent.allocator(), &self.sent[self.answered..])? {
            Some(heard) if may_pass(self.gate, &heard) => self.answer_one(heard),
            _ => Ok(()),
        }
    }

    /// Gives what fits of what it has to give.
    #[tactic(auto, using(crate::proofs::Mirroring::taken_more))]
    fn give_next(&mut self, now: Millis, into: &mut [u8]) -> Got
        requires room { 0 < length into.old }
        requires left { self.old.state.taken_count < most_bytes }
        ensures fits { GotFits result (length into.old) }
        ensures asks { self.new.state.read_length ≡ self.old.state.read_length }
        ensures reads { LinkReads self.old.state self.new.state now.0 result into.new }
        ensures limit { ReadKeepsLimit self.old.state.taken_count result }
        ensures counted { IsCounted self.old.state → IsCounted self.new.state }
        ensures stays { StaysEnd self.old self.new }
    {
        let n = give(
            self.gives.as_slice(),
            self.taken,
            MOST_BYTES - self.taken,
            into,
        );
        if n == 0 {
            self.counts.read_waits = self.counts.read_waits.saturating_add(1);
            self.counts.read_wait_at = now.0;
            self.counts.read_waited = true;
            return Got::NotYet;
        }
        self.taken += n;
        self.counts.read_waited = false;
        Got::Bytes(n)
    }

    /// Counts a fault of a read.
    fn fail_read(&mut self) -> Got
        ensures fails { result ≡ got.Failed }
        ensures reads { LinkReads self.old.state self.new.state 0 got.Failed [] }
        ensures asks { self.new.state.read_length ≡ self.old.state.read_length }
        ensures counted { IsCounted self.old.state → IsCounted self.new.state }
        ensures stays { StaysEnd self.old self.new }
    {
        self.counts.faults = self.counts.faults.saturating_add(1);
        Got::Failed
    }
}

impl<'a, T: Turnstile> Link for MirrorLink<'a, T> {
    ghost use Rattle.hx_link.specs.Sources.{PutFits, KeepsEnd};
    ghost use Rattle.hx_link.specs.Links.{LinkWrites, LinkFinishes, WriteKeepsLimit};

    ghost state = { λ m. m.state };

    /// It never tells an end.
    #[tactic(auto, using(crate::proofs::Mirroring::reads_behind))]
    fn read(&mut self, now: Millis, into: &mut [u8]) -> Got
        requires room { 0 < length into.old }
        ensures fits { GotFits result (length into.old) }
        ensures asks { self.new.state.read_length ≡ length into.old }
        ensures reads { LinkReads self.old.state self.new.state now.0 result into.new }
        ensures ended { KeepsEnd self.old.state.told_end result }
        ensures limit { ReadKeepsLimit self.old.state.taken_count result }
        ensures counted { IsCounted self.old.state → IsCounted self.new.state }
        ensures stays { StaysEnd self.old self.new }
    {
        self.counts.read_length = into.len();
        if self.taken >= MOST_BYTES {
            return self.fail_read();
        }
        if self.answer_next().is_err() {
            return self.fail_read();
        }
        self.give_next(now, into)
    }

    /// It never waits.
    fn write(&mut self, now: Millis, bytes: &[u8]) -> Put
        requires some { 0 < length bytes.now }
        ensures fits { PutFits result (length bytes.now) }
        ensures offers { self.new.state.write_length ≡ length bytes.now }
        ensures writes { LinkWrites self.old.state self.new.state now.0 result bytes.now }
        ensures limit { WriteKeepsLimit self.old.state.sent_count result }
        ensures counted { IsCounted self.old.state → IsCounted self.new.state }
        ensures stays { StaysEnd self.old self.new }
    {
        self.counts.write_length = bytes.len();
        let n = bytes.len().min(MOST_BYTES - self.sent.len());
        if n == 0 || self.sent.extend_from_slice(&bytes[..n]).is_err() {
            self.counts.faults = self.counts.faults.saturating_add(1);
            return Put::Failed;
        }
        self.counts.read_waited = false;
        Put::Bytes(n)
    }

    fn finish(&mut self)
        ensures finishes { LinkFinishes self.old.state self.new.state }
        ensures stays { StaysEnd self.old self.new }
    {
        self.counts.finished = true;
    }
}
