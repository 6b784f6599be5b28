//! A link over a socket, which remembers whether a call would wait.
ghost use Rattle.std.specs.Prelude.{◌≡◌, None, Some, true, false};
ghost use Rattle.hx_link.specs.Nets.{IsFresh};
ghost use Rattle.hx_doors.specs.Doors.{IsClient};
ghost use Rattle.hx_proxy_parts.specs.LinkSteps.{CountsFault, WaitsToRead, WaitsToWrite};

use crate::reports::{CLOSED, READ, Registered, WRITE};
use hx_base::{Millis, ThreadNo};
use hx_link::{Got, Link, Put};
use mio::net::TcpStream;
use mio::{Interest, Token};
use std::io::{ErrorKind, Read, Write};
use std::marker::Model;
use std::net::Shutdown;

/// The most bytes that are taken of a link, and the most that are sent on it.
const MOST_BYTES: u64 = 9_223_372_036_854_775_807;

/// How many times bytes are read away, at most, where a link is closed.
const MOST_DRAINS: u32 = 16;

/// Who opened a connection.
#[derive(Clone, Copy, PartialEq, Eq)]
pub(crate) enum Opener {
    Peer,
    Proxy,
}

/// A connection of the machine. It tells no bytes.
#[derive(Drop)]
pub struct SockLink {
    stream: TcpStream,
    opener: Opener,
    /// Where it is registered, also while it is attached to no loop.
    registered: Option<Registered>,
    /// Nothing says yet that a read would wait, and that a write would.
    may_read: bool,
    may_write: bool,
    /// The machine failed, and each call fails from then on.
    broken: bool,
    faults: u64,
    read_waits: u64,
    read_wait_at: u64,
    read_waited: bool,
    write_waits: u64,
    write_wait_at: u64,
    taken: u64,
    sent: u64,
    read_length: usize,
    write_length: usize,
    ended: bool,
    finished: bool,
    on_loop: Option<ThreadNo>,
}

impl Model for SockLink {
    ghost use Rattle.hx_link.specs.Told.{LinkState};

    ghost Value = { LinkState };

    ghost use Rattle.hx_proxy_parts.specs.SockViews.{link_view};

    ghost view = { link_view };
}

impl SockLink {
    pub(crate) fn new(stream: TcpStream, opener: Opener) -> SockLink
        ensures fresh { IsFresh result }
        ensures client { IsClient result }
        ensures ended { result.told_end ≡ false }
        ensures tag { result.tag ≡ None }
    {
        SockLink {
            stream,
            opener,
            registered: None,
            may_read: true,
            may_write: true,
            broken: false,
            faults: 0,
            read_waits: 0,
            read_wait_at: 0,
            read_waited: false,
            write_waits: 0,
            write_wait_at: 0,
            taken: 0,
            sent: 0,
            read_length: 0,
            write_length: 0,
            ended: false,
            finished: false,
            on_loop: None,
        }
    }

    /// Whether it is registered at the loop of that thread.
    pub(crate) fn lies_at(&self, thread: ThreadNo) -> bool {
        match &self.registered {
            Some(registered) => registered.reports.thread == thread,
            None => false,
        }
    }

    /// Registers it nowhere, and says whether the machine did. It keeps what was reported; the next loop reports what is
    /// ready as it is registered there.
    pub(crate) fn leave(&mut self) -> bool
        ensures same { self.new ≡ self.old }
    {
        let Some(registered) = self.registered.take() else {
            return true;
        };
        let done = registered
            .reports
            .registry
            .deregister(&mut self.stream)
            .is_ok();
        let seen = registered.take_bits(READ | WRITE);
        self.may_read = self.may_read || seen & (READ | CLOSED) != 0;
        self.may_write = self.may_write || seen & (WRITE | CLOSED) != 0;
        done
    }

    /// Registers it there, and says whether the machine did.
    pub(crate) fn enter(&mut self, registered: Registered) -> bool
        ensures same { self.new ≡ self.old }
    {
        let both = Interest::READABLE | Interest::WRITABLE;
        let token = Token(registered.token);
        let done = registered
            .reports
            .registry
            .register(&mut self.stream, token, both)
            .is_ok();
        if done {
            self.registered = Some(registered);
        }
        done
    }

    /// It is attached to the loop of that thread, for a session.
    pub(crate) fn set_loop(&mut self, thread: ThreadNo, session: u32)
        ensures attached { self.new ≡ record self.old { on_loop = Some thread.0 } }
    {
        if let Some(registered) = &self.registered {
            registered.hand_to(session);
        }
        self.on_loop = Some(thread);
    }

    /// It is attached to no loop. Where it is registered it stays.
    pub(crate) fn clear_loop(&mut self)
        ensures detached { self.new ≡ record self.old { on_loop = None } }
    {
        if let Some(registered) = &self.registered {
            registered.hand_to(0);
        }
        self.on_loop = None;
    }

    /// Closes it. A client is told first that nothing more comes, and what it sent and nobody read is read away, since
    /// the machine drops what is on its way to the peer of a connection that is closed with bytes unread. It says whether
    /// the machine did.
    pub(crate) fn close(self) -> bool {
        let mut link = self;
        if link.opener == Opener::Proxy || link.ended || link.broken {
            return true;
        }
        link.stream.shutdown(Shutdown::Write).is_ok() && read_away(&mut link.stream)
    }

    /// Takes what was reported of reads, and says whether the peer closed.
    fn look_for_bytes(&mut self) -> bool
        ensures same { self.new ≡ self.old }
    {
        match &self.registered {
            Some(registered) => {
                let seen = registered.take_bits(READ);
                if seen & (READ | CLOSED) != 0 {
                    self.may_read = true;
                }
                seen & CLOSED != 0
            }
            // Nobody would report it.
            None => {
                self.may_read = true;
                false
            }
        }
    }

    /// Takes what was reported of writes.
    fn look_for_room(&mut self)
        ensures same { self.new ≡ self.old }
    {
        match &self.registered {
            Some(registered) => {
                if registered.take_bits(WRITE) & (WRITE | CLOSED) != 0 {
                    self.may_write = true;
                }
            }
            // Nobody would report it.
            None => self.may_write = true,
        }
    }

    fn count_fault(&mut self)
        ensures { CountsFault self.old self.new }
    {
        self.faults = self.faults.saturating_add(1);
    }

    fn wait_to_read(&mut self, now: Millis)
        ensures { WaitsToRead self.old self.new now.0 }
    {
        self.read_waits = self.read_waits.saturating_add(1);
        self.read_wait_at = now.0;
        self.read_waited = true;
    }

    fn wait_to_write(&mut self, now: Millis)
        ensures { WaitsToWrite self.old self.new now.0 }
    {
        self.write_waits = self.write_waits.saturating_add(1);
        self.write_wait_at = now.0;
    }
}

/// Reads away what is there, up to a limit, and says whether the machine did.
fn read_away(stream: &mut TcpStream) -> bool {
    let mut buffer = [0; 1024];
    for _ in 0..MOST_DRAINS {
        match stream.read(&mut buffer) {
            Ok(0) => return true,
            Ok(_) => {}
            Err(error) => return error.kind() == ErrorKind::WouldBlock,
        }
    }
    true
}

impl Link for SockLink {
    ghost state = { λ l. l };

    fn read(&mut self, now: Millis, into: &mut [u8]) -> Got {
        self.read_length = into.len();
        if self.broken || self.taken >= MOST_BYTES {
            self.count_fault();
            return Got::Failed;
        }
        if self.ended {
            return Got::End;
        }
        let closed = self.look_for_bytes();
        if !self.may_read {
            self.wait_to_read(now);
            return Got::NotYet;
        }
        let room = into.len().min((MOST_BYTES - self.taken) as usize);
        match self.stream.read(&mut into[..room]) {
            Ok(0) => {
                self.ended = true;
                Got::End
            }
            Ok(n) => {
                self.may_read = closed || n == room;
                self.taken += n as u64;
                self.read_waited = false;
                Got::Bytes(n)
            }
            Err(error) if error.kind() == ErrorKind::WouldBlock => {
                self.may_read = closed;
                self.wait_to_read(now);
                Got::NotYet
            }
            Err(_) => {
                self.broken = true;
                self.count_fault();
                Got::Failed
            }
        }
    }

    fn write(&mut self, now: Millis, bytes: &[u8]) -> Put {
        self.write_length = bytes.len();
        if self.broken || self.sent >= MOST_BYTES {
            self.count_fault();
            return Put::Failed;
        }
        self.look_for_room();
        if !self.may_write {
            self.wait_to_write(now);
            return Put::NotYet;
        }
        let most = bytes.len().min((MOST_BYTES - self.sent) as usize);
        match self.stream.write(&bytes[..most]) {
            Ok(n) if n > 0 => {
                self.may_write = n == most;
                self.sent += n as u64;
                self.read_waited = false;
                Put::Bytes(n)
            }
            Err(error) if error.kind() == ErrorKind::WouldBlock => {
                self.may_write = false;
                self.wait_to_write(now);
                Put::NotYet
            }
            _ => {
                self.broken = true;
                self.count_fault();
                Put::Failed
            }
        }
    }

    fn finish(&mut self) {
        self.finished = true;
        if self.stream.shutdown(Shutdown::Write).is_err() {
            self.faults = self.faults.saturating_add(1);
        }
    }
}
