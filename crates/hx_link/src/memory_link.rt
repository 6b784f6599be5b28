//! A link in memory, which follows a plan.
ghost use Rattle.std.specs.Prelude.{◌≡◌, ◌≤◌, ◌<◌, length, Some, IfSome, IfOk, option_map};
ghost use Rattle.hx_link.specs.Planned.{fails_at, room_in};
ghost use Rattle.hx_link.specs.Told.{IsCounted};
ghost use Rattle.hx_link.specs.MemoryLinks.{new_link, begun_link, with_loop, finished_link, KeepsPlan};
ghost use Rattle.hx_link.specs.MemoryNets.{dialled_link, IsPlan};
ghost use Rattle.hx_link.specs.MemoryCauses.{MemoryReads, MemoryWrites};

use crate::answers::{Got, Put};
use crate::link::Link;
use crate::link_bytes::{LinkBytes, join_pieces};
use crate::place::{Due, MOST_TAKEN, Place, find_due, give_next, pass_taken};
use hx_base::{Bytes, ConnId, Millis, NoMemory, Plan, ServerNo, ThreadNo};
use std::marker::Model;

/// The most bytes that are sent on a link.
const MOST_SENT: usize = MOST_TAKEN;

/// Gives the pieces of its plan and keeps all bytes that are sent on it.
#[derive(Drop)]
pub struct MemoryLink {
    plan: Plan,
    at: Place,
    sent: Vec<u8>,
    calls: u64,
    faults: u64,
    read_waits: u64,
    read_wait_at: u64,
    read_waited: bool,
    read_length: usize,
    write_length: usize,
    ended: bool,
    finished: bool,
    starved: bool,
    on_loop: Option<ThreadNo>,
    /// The server and the id for which a net dialled it.
    dial: Option<(ServerNo, ConnId)>,
}

impl Model for MemoryLink {
    ghost use Rattle.hx_link.specs.MemoryLinks.{MemoryLinkNow};

    ghost Value = { MemoryLinkNow };

    ghost use Rattle.hx_link.specs.MemoryLinkView.{link_view, IsLink};

    ghost view = { link_view };

    ghost invariant = { IsLink };
}

/// How many bytes a write takes.
fn room_of(room: Option<u64>, count: usize) -> usize
    ensures room { result ≡ room_in room count }
{
    match room {
        None => count,
        Some(n) => count.min(n as usize),
    }
}

/// Whether the call fails.
fn fails(fail: Option<u64>, call: u64) -> bool
    ensures fails { result ≡ fails_at fail call }
{
    match fail {
        None => false,
        Some(first) => first <= call,
    }
}

impl MemoryLink {
    /// It takes no memory. The bytes that are sent go into the plan's allocator.
    pub fn new(plan: Plan) -> MemoryLink
        requires room { IfSome plan.room (λ n. 1 ≤ n) }
        requires fail { IfSome plan.fail (λ n. 1 ≤ n) }
        ensures begins { result ≡ new_link plan }
    {
        MemoryLink::begin(plan, None)
    }

    /// The link that a dial of this server and id gives.
    pub(crate) fn dialled(plan: Plan, server: ServerNo, id: ConnId) -> MemoryLink
        requires plan { IsPlan plan }
        ensures begins { result ≡ dialled_link server id plan }
    {
        MemoryLink::begin(plan, Some((server, id)))
    }

    fn begin(plan: Plan, dial: Option<(ServerNo, ConnId)>) -> MemoryLink
        requires room { IfSome plan.room (λ n. 1 ≤ n) }
        requires fail { IfSome plan.fail (λ n. 1 ≤ n) }
        ensures begins { result ≡ begun_link plan (option_map (λ d. (d.0.0, d.1.0)) dial) }
    {
        let alloc = plan.pieces.allocator();
        MemoryLink {
            plan,
            at: Place {
                piece: 0,
                offset: 0,
                taken: 0,
            },
            sent: Vec::new(alloc),
            calls: 0,
            faults: 0,
            read_waits: 0,
            read_wait_at: 0,
            read_waited: false,
            read_length: 0,
            write_length: 0,
            ended: false,
            finished: false,
            starved: false,
            on_loop: None,
            dial,
        }
    }

    /// The script line of its plan.
    pub fn tag(&self) -> u32
        ensures { Some result ≡ self.now.state.tag }
    {
        self.plan.line
    }

    /// The server and the id for which a net dialled it. None: no dial gave it, as a client's.
    pub fn dial(&self) -> Option<(ServerNo, ConnId)>
        ensures dial { option_map (λ d. (d.0.0, d.1.0)) result ≡ self.now.state.dial }
    {
        self.dial
    }

    /// Attaches it to the loop of that thread, or to none.
    pub(crate) fn set_loop(&mut self, on_loop: Option<ThreadNo>)
        ensures { self.new ≡ with_loop (option_map (λ t. t.0) on_loop) self.old }
    {
        self.on_loop = on_loop;
    }

    /// Whether a write found no memory.
    pub fn starved(&self) -> bool
        ensures starved { result ≡ self.now.starved }
        ensures plan { KeepsPlan self.now }
    {
        self.starved
    }

    /// All its bytes, and whether it told its end. It takes memory only where bytes of more than one piece were taken.
    ///
    /// # Errors
    /// `NoMemory` for want of memory.
    pub fn into_bytes(self) -> Result<LinkBytes, NoMemory>
        ensures sent { IfOk result (λ bytes. Some bytes.sent ≡ self.state.sent) }
        ensures taken { IfOk result (λ bytes. Some bytes.taken ≡ self.state.taken) }
        ensures ended { IfOk result (λ bytes. bytes.ended ≡ self.state.told_end) }
        ensures counted { IsCounted self.state }
        ensures plan { KeepsPlan self }
    {
        let taken = join_pieces(self.plan.pieces, self.at.taken)?;
        let sent = Bytes::from_vec(self.sent);
        Ok(LinkBytes {
            sent,
            taken,
            ended: self.ended,
        })
    }
}

impl Link for MemoryLink {
    ghost use Rattle.hx_link.specs.Sources.{GotFits, PutFits, KeepsEnd};
    ghost use Rattle.hx_link.specs.Links.{LinkReads, LinkWrites, ReadKeepsLimit, WriteKeepsLimit};

    ghost state = { λ m. m.state };

    fn read(&mut self, now: Millis, into: &mut [u8]) -> Got
        requires room { 0 < length into.old }
        ensures fits { GotFits result (length into.old) }
        ensures asks { self.new.state.read_length ≡ length into.old }
        ensures reads { LinkReads self.old.state self.new.state now.0 result into.new }
        ensures ended { KeepsEnd self.old.state.told_end result }
        ensures limit { ReadKeepsLimit self.old.state.taken_count result }
        ensures counted { IsCounted self.old.state → IsCounted self.new.state }
        ensures answers { MemoryReads self.old self.new now.0 (length into.old) result }
    {
        self.calls = self.calls.saturating_add(1);
        self.read_length = into.len();
        if fails(self.plan.fail, self.calls) || self.at.taken >= MOST_TAKEN {
            self.faults = self.faults.saturating_add(1);
            return Got::Failed;
        }
        if self.ended {
            return Got::End;
        }
        self.at = pass_taken(self.plan.pieces.as_slice(), self.at);
        match find_due(&self.plan, self.at, self.sent.len(), now) {
            Due::Nothing => {
                self.read_waits = self.read_waits.saturating_add(1);
                self.read_wait_at = now.0;
                self.read_waited = true;
                Got::NotYet
            }
            Due::End => {
                self.ended = true;
                Got::End
            }
            Due::Bytes => {
                let n = give_next(self.plan.pieces.as_slice(), self.at, into);
                self.at.offset += n;
                self.at.taken += n;
                self.read_waited = false;
                Got::Bytes(n)
            }
        }
    }

    fn write(&mut self, now: Millis, bytes: &[u8]) -> Put
        requires some { 0 < length bytes.now }
        ensures fits { PutFits result (length bytes.now) }
        ensures offers { self.new.state.write_length ≡ length bytes.now }
        ensures writes { LinkWrites self.old.state self.new.state now.0 result bytes.now }
        ensures limit { WriteKeepsLimit self.old.state.sent_count result }
        ensures counted { IsCounted self.old.state → IsCounted self.new.state }
        ensures answers { MemoryWrites self.old self.new (length bytes.now) result }
    {
        self.calls = self.calls.saturating_add(1);
        self.write_length = bytes.len();
        let left = MOST_SENT - self.sent.len();
        if fails(self.plan.fail, self.calls) || left == 0 || self.starved {
            self.faults = self.faults.saturating_add(1);
            return Put::Failed;
        }
        let n = room_of(self.plan.room, bytes.len()).min(left);
        match self.sent.extend_from_slice(&bytes[..n]) {
            Ok(()) => {
                self.read_waited = false;
                Put::Bytes(n)
            }
            Err(_) => {
                self.starved = true;
                self.faults = self.faults.saturating_add(1);
                Put::Failed
            }
        }
    }

    /// It is remembered, and fails no write.
    fn finish(&mut self)
        ensures finishes { self.new ≡ finished_link self.old }
    {
        self.finished = true;
    }
}
