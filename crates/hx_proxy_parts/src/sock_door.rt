//! A door over listening sockets, with a poll of its own.
ghost use Rattle.std.specs.Prelude.{◌≡◌, IfOk};
ghost use Rattle.hx_proxy_parts.specs.Doors.{new_sock_door};
ghost use Rattle.hx_proxy_parts.specs.Finds.{FoundClient};

use crate::sock_link::{Opener, SockLink};
use crate::sock_net::socket_address;
use hx_base::{Address, Millis, ThreadNo};
use hx_doors::{Accepted, Door};
use hx_link::NetFault;
use mio::net::{TcpListener, TcpStream};
use mio::{Events, Interest, Poll, Token, Waker};
use std::alloc::Global;
use std::io;
use std::io::ErrorKind;
use std::marker::Model;
use std::net::Ipv4Addr;
use std::time::Duration;

/// A listening socket, which remembers whether a client may wait there.
#[derive(Drop)]
struct Listening {
    front: u16,
    listener: TcpListener,
    ready: bool,
}

/// What a look at the listening sockets found.
#[derive(Drop)]
enum Found {
    Client(u16, SockLink),
    Nothing,
    Failed,
}

/// Accepts the clients of its listening sockets, and wakes nets.
#[derive(Drop)]
pub struct SockDoor<R> {
    rt: R,
    poll: Poll,
    events: Events,
    listening: Vec<Listening>,
    /// What ends the pauses of nets, by their threads.
    wakers: Vec<Waker>,
    faults: u64,
    waits: u64,
}

impl<R> Model for SockDoor<R> {
    ghost use Rattle.std.specs.Prelude.{None};
    ghost use Rattle.hx_doors.specs.Doors.{DoorState};

    ghost Value = { DoorState };

    ghost view = { λ d. record { faults = d.faults; waits = d.waits; clients = None; listens = None } };
}

/// How many events a wait takes at most.
const MOST_EVENTS: usize = 64;

impl<R: std::net::Net + Drop> SockDoor<R> {
    /// A door that listens for no front yet. The wakers are those of the nets of threads 0, 1, ..
    ///
    /// # Errors
    /// Where the machine refuses, or for want of memory.
    pub fn new(rt: R, alloc: Global, wakers: Vec<Waker>) -> io::Result<SockDoor<R>>
        ensures begins { IfOk result (λ d. d ≡ new_sock_door) }
    {
        let poll = Poll::new(&rt)?;
        let events = Events::with_capacity(alloc, MOST_EVENTS)?;
        Ok(SockDoor {
            rt,
            poll,
            events,
            listening: Vec::new(alloc),
            wakers,
            faults: 0,
            waits: 0,
        })
    }

    fn open(&mut self, front: u16, address: &Address) -> io::Result<()>
        ensures { self.new ≡ self.old }
    {
        let any = Ipv4Addr::new(0, 0, 0, 0);
        let mut listener = TcpListener::bind(&self.rt, socket_address(address, any))?;
        let token = Token(self.listening.len());
        self.poll
            .registry()
            .register(&mut listener, token, Interest::READABLE)?;
        self.listening.push(Listening {
            front,
            listener,
            ready: true,
        })?;
        Ok(())
    }

    /// Waits for a client, and notes where one may wait.
    fn wait(&mut self, limit: Millis) -> io::Result<()>
        ensures { self.new ≡ self.old }
    {
        let limit = Duration::from_millis(limit.0);
        self.poll.poll(&mut self.events, Some(limit))?;
        for event in &self.events {
            if let Some(listening) = self.listening.get_mut(event.token().0) {
                listening.ready = true;
            }
        }
        Ok(())
    }
}

/// Accepts a client of the first socket where one waits.
fn look(listening: &mut Vec<Listening>) -> Found
    ensures { FoundClient result }
{
    for socket in listening.iter_mut() {
        if socket.ready {
            match accept(&socket.listener) {
                Ok(stream) => {
                    return Found::Client(socket.front, SockLink::new(stream, Opener::Peer));
                }
                Err(error) if error.kind() == ErrorKind::WouldBlock => socket.ready = false,
                Err(_) => return Found::Failed,
            }
        }
    }
    Found::Nothing
}

/// One client. Small writes go out at once.
fn accept(listener: &TcpListener) -> io::Result<TcpStream> {
    let (stream, _) = listener.accept()?;
    stream.set_nodelay(true)?;
    Ok(stream)
}

impl<R: std::net::Net + Drop> Door for SockDoor<R> {
    type L = SockLink;

    ghost state = { λ d. d };

    fn listen(&mut self, front: u16, address: &Address) -> Result<(), NetFault> {
        match self.open(front, address) {
            Ok(()) => Ok(()),
            Err(_) => {
                self.faults = self.faults.saturating_add(1);
                Err(NetFault)
            }
        }
    }

    /// It waits only where no client is known to be there, or where the machine refused one, as it does without a
    /// descriptor left: so a caller who tries again doesn't turn in a circle.
    fn accept(&mut self, limit: Millis) -> Accepted<SockLink> {
        let mut found = look(&mut self.listening);
        if let Found::Nothing = &found {
            found = match self.wait(limit) {
                Ok(()) => look(&mut self.listening),
                Err(_) => Found::Failed,
            };
        }
        match found {
            Found::Client(front, link) => Accepted::Client(front, link),
            Found::Nothing => {
                self.waits = self.waits.saturating_add(1);
                Accepted::NotYet
            }
            Found::Failed => {
                // What comes meanwhile is noted; a failed pause is made up for by the next try.
                let _ = self.wait(limit);
                self.faults = self.faults.saturating_add(1);
                Accepted::Failed
            }
        }
    }

    fn wake(&self, thread: ThreadNo) {
        if let Some(waker) = self.wakers.get(thread.0 as usize) {
            // A wake that the machine refuses is made up for by the end of the pause.
            let _ = waker.wake();
        }
    }
}
