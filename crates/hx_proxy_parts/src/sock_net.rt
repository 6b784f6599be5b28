//! A net over sockets, with a poll of its own.
ghost use Rattle.std.specs.Prelude.{◌≡◌, IfOk};
ghost use Rattle.hx_proxy_parts.specs.Nets.{new_sock_net};

use crate::reports::{CLOSED, READ, Registered, Reports, WRITE};
use crate::sock_link::{Opener, SockLink};
use hx_base::{Address, ConnId, Host, Millis, ServerNo, SessionNo, ThreadNo};
use hx_link::{Net, NetFault};
use mio::event::Event;
use mio::net::TcpStream;
use mio::{Events, Interest, Poll, Token, Waker};
use std::alloc::Global;
use std::io;
use std::marker::Model;
use std::net::{Ipv4Addr, SocketAddr, SocketAddrV4};
use std::sync::Arc;
use std::time::Duration;

/// The token of the waker, which no link has.
const WAKER: usize = usize::MAX;

/// How many events a pause takes at most. What doesn't fit comes with the next one.
const MOST_EVENTS: usize = 256;

/// Dials links, and attaches them to the loop of one thread.
#[derive(Drop)]
pub struct SockNet<R> {
    rt: R,
    poll: Poll,
    events: Events,
    reports: Arc<Reports, Global>,
    thread: ThreadNo,
    /// Where the search for a free word begins.
    cursor: usize,
    /// The session for which it attaches, or 0.
    session: u32,
    /// The sessions whose links the last pause reported, in the order of the reports.
    news: Vec<u32>,
    /// How many of them were told.
    told: usize,
    faults: u64,
}

impl<R> Model for SockNet<R> {
    ghost use Rattle.std.specs.Prelude.{None};
    ghost use Rattle.hx_link.specs.Nets.{NetState};

    ghost Value = { NetState };

    ghost view = { λ n. record {
      faults = n.faults;
      loop_no = n.thread.0;
      dials = None;
      buried = None;
      course = None;
    } };
}

/// The address of a server or of a listening socket.
pub(crate) fn socket_address(address: &Address, any: Ipv4Addr) -> SocketAddr {
    let ip = match address.host {
        Host::Any => any,
        Host::V4(a, b, c, d) => Ipv4Addr::new(a, b, c, d),
        Host::Local => Ipv4Addr::new(127, 0, 0, 1),
    };
    SocketAddr::V4(SocketAddrV4::new(ip, address.port))
}

/// Begins to connect. Small writes go out at once.
fn open<R: std::net::Net>(rt: &R, address: &Address) -> io::Result<TcpStream> {
    let here = Ipv4Addr::new(127, 0, 0, 1);
    let stream = TcpStream::connect(rt, socket_address(address, here))?;
    stream.set_nodelay(true)?;
    Ok(stream)
}

/// What an event says to a link.
fn bits_of(event: &Event) -> u64 {
    let mut bits = 0;
    if event.is_readable() {
        bits |= READ;
    }
    if event.is_writable() {
        bits |= WRITE;
    }
    if event.is_read_closed() || event.is_error() {
        bits |= CLOSED;
    }
    bits
}

impl<R: std::net::Net + Drop> SockNet<R> {
    /// A net whose loop has room for so many links.
    ///
    /// # Errors
    /// Where the machine refuses, or for want of memory.
    pub fn new(rt: R, alloc: Global, thread: ThreadNo, room: usize) -> io::Result<SockNet<R>>
        ensures begins { IfOk result (λ n. n ≡ new_sock_net thread) }
    {
        let poll = Poll::new(&rt)?;
        let registry = poll.registry().try_clone()?;
        let events = Events::with_capacity(alloc, MOST_EVENTS)?;
        let Ok(reports) = Reports::new(alloc, thread, registry, room) else {
            return Err(io::Error::from(io::ErrorKind::OutOfMemory));
        };
        let reports = Arc::new(alloc, reports)?;
        let news = Vec::with_capacity(alloc, MOST_EVENTS)?;
        Ok(SockNet {
            rt,
            poll,
            events,
            reports,
            thread,
            cursor: 0,
            session: 0,
            news,
            told: 0,
            faults: 0,
        })
    }

    /// What ends a pause of this net, from any thread. One a net is enough.
    ///
    /// # Errors
    /// Where the machine refuses.
    pub fn waker(&self) -> io::Result<Waker> {
        Waker::new(self.poll.registry(), Token(WAKER))
    }

    /// Registers a link here, and nowhere else, and says whether it is.
    fn register(&mut self, link: &mut SockLink) -> bool
        ensures net { self.new ≡ self.old }
        ensures link { link.new ≡ link.old }
    {
        if !link.leave() {
            return false;
        }
        let Some(token) = self.reports.take(self.cursor, self.session) else {
            return false;
        };
        self.cursor = token.saturating_add(1);
        let Ok(reports) = Arc::try_clone(&self.reports) else {
            return false;
        };
        link.enter(Registered { reports, token })
    }

    /// Notes what the poll told, and which sessions it concerns.
    fn note_events(&mut self)
        ensures { self.new ≡ self.old }
    {
        self.news.clear();
        self.told = 0;
        let mut last = 0;
        for event in &self.events {
            let session = self.reports.note(event.token().0, bits_of(event));
            if session != 0 && session != last {
                // There is room for as many as there are events.
                let _ = self.news.push(session);
                last = session;
            }
        }
    }
}

impl<R: std::net::Net + Drop> Net for SockNet<R> {
    type L = SockLink;

    ghost state = { λ n. n };

    fn loop_no(&self) -> ThreadNo {
        self.thread
    }

    fn dial(
        &mut self,
        _server: ServerNo,
        address: &Address,
        _id: ConnId,
        _now: Millis,
    ) -> Result<SockLink, NetFault> {
        match open(&self.rt, address) {
            Ok(stream) => Ok(SockLink::new(stream, Opener::Proxy)),
            Err(_) => {
                self.faults = self.faults.saturating_add(1);
                Err(NetFault)
            }
        }
    }

    /// A link that is registered here already costs nothing.
    fn attach(&mut self, link: &mut SockLink) -> Result<(), NetFault> {
        if !link.lies_at(self.thread) && !self.register(link) {
            self.faults = self.faults.saturating_add(1);
            return Err(NetFault);
        }
        link.set_loop(self.thread, self.session);
        Ok(())
    }

    /// The link stays registered, so that it costs nothing to attach it here again.
    fn detach(&mut self, link: &mut SockLink) {
        let _here = self.thread;
        link.clear_loop();
    }

    fn bury(&mut self, link: SockLink) {
        if !link.close() {
            self.faults = self.faults.saturating_add(1);
        }
    }

    fn attach_for(&mut self, session: SessionNo) {
        self.session = session.0;
    }

    fn next_news(&mut self) -> Option<SessionNo> {
        let session = self.news.get(self.told).copied();
        if session.is_some() {
            self.told = self.told.saturating_add(1);
        }
        session.map(SessionNo)
    }

    fn pause(&mut self, limit: Millis) {
        let limit = Duration::from_millis(limit.0);
        if self.poll.poll(&mut self.events, Some(limit)).is_err() {
            self.faults = self.faults.saturating_add(1);
        }
        self.note_events();
    }
}
