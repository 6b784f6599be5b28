//! A run over sockets, with a client and a server of the test.

use super::{ANSWER, ASK, ROOM, cabinet_of, words_of};
use hx_base::ThreadNo;
use hx_link::{MemorySink, Reading};
use hx_proxy_parts::{MachineClock, SockDoor, SockNet};
use hx_serve::serve_main;
use std::alloc::Global;
use std::io::{Read, Write};
use std::net::{TcpListener, TcpStream};
use std::test::Fail;
use std::thread::join;
use std::time::Duration;
use std::{io, thread};

/// How many links a thread's loop has room for.
const LINKS: usize = 64;

/// How often a connection to the program is tried, 20 milliseconds apart.
const TRIES: u32 = 250;

/// A net for each thread, and the door that wakes them.
#[derive(Drop)]
pub(crate) struct Outside<R> {
    pub nets: Vec<SockNet<R>>,
    pub door: SockDoor<R>,
}

pub(crate) fn make_outside(rt: &HostRuntime) -> io::Result<Outside<&HostRuntime>> {
    let alloc = rt.alloc();
    let mut nets = Vec::new(alloc);
    let mut wakers = Vec::new(alloc);
    for thread in 0..16 {
        let net = SockNet::new(rt, alloc, ThreadNo(thread), LINKS)?;
        wakers.push(net.waker()?)?;
        nets.push(net)?;
    }
    let door = SockDoor::new(rt, alloc, wakers)?;
    Ok(Outside { nets, door })
}

/// A port at which nobody listens just now.
fn free_port(rt: &HostRuntime) -> io::Result<u16> {
    Ok(TcpListener::bind(rt, "127.0.0.1:0")?.local_addr()?.port())
}

/// The file of a proxy at that port before a server at the other one.
pub(crate) fn file_of(alloc: Global, port: u16, server: u16) -> Result<String, Fail> {
    Ok(format!(in alloc;
        "listen web\n  bind 127.0.0.1:{port}\n  http-reuse always\n  server s1 127.0.0.1:{server}\n"
    )?)
}

/// Connects once somebody listens there.
fn connect_soon(rt: &HostRuntime, port: u16) -> io::Result<TcpStream> {
    let address = format!(in rt.alloc(); "127.0.0.1:{port}")?;
    for _ in 1..TRIES {
        if let Ok(stream) = TcpStream::connect(rt, address.as_str()) {
            return Ok(stream);
        }
        thread::sleep(rt, Duration::from_millis(20));
    }
    TcpStream::connect(rt, address.as_str())
}

/// What the server was asked, and what the client was answered.
type Heard = ([u8; 28], [u8; 40]);

/// A client asks through the proxy, and the server answers it.
fn ask_through(rt: &HostRuntime, port: u16, server: &TcpListener) -> io::Result<Heard> {
    let mut asked = [0; 28];
    let mut answered = [0; 40];
    let mut client = connect_soon(rt, port)?;
    client.write_all(ASK.as_bytes())?;
    let (mut there, _) = server.accept()?;
    there.read_exact(&mut asked)?;
    there.write_all(ANSWER.as_bytes())?;
    client.read_exact(&mut answered)?;
    Ok((asked, answered))
}

/// The same, and then the run is stopped, whatever became of it.
fn ask_and_stop(
    rt: &HostRuntime,
    port: u16,
    server: &TcpListener,
    orders: &mut TcpStream,
) -> io::Result<Heard> {
    let heard = ask_through(rt, port, server);
    orders.write_all(b"stop\n")?;
    heard
}

#[test]
fn a_client_is_served_over_sockets(rt: HostRuntime) -> Result<(), Fail> {
    let alloc = rt.alloc();
    let server = TcpListener::bind(&rt, "127.0.0.1:0")?;
    let port = free_port(&rt)?;
    let file = file_of(alloc, port, server.local_addr()?.port())?;
    let words = words_of(alloc, "--config f --threads 2")?;
    let mut cabinet = cabinet_of(alloc, file.as_str(), 0)?;
    let lines = TcpListener::bind(&rt, "127.0.0.1:0")?;
    let mut stopper = TcpStream::connect(&rt, lines.local_addr()?)?;
    let (read_end, _) = lines.accept()?;
    let mut orders = Reading::new(read_end);
    let Outside { mut nets, mut door } = make_outside(&rt)?;
    let clock = MachineClock::new(&rt);
    let mut sink = MemorySink::new(alloc, ROOM, Vec::new(alloc))?;
    let (status, heard) = join(
        &rt,
        || {
            serve_main(
                &rt,
                alloc,
                words.as_slice(),
                &mut cabinet,
                &mut orders,
                &mut door,
                nets.as_mut_slice(),
                &clock,
                &mut sink,
            )
        },
        || ask_and_stop(&rt, port, &server, &mut stopper),
    );
    let (asked, answered) = heard?;
    assert_eq!(rt; asked.as_slice(), ASK.as_bytes());
    assert_eq!(rt; answered.as_slice(), ANSWER.as_bytes());
    assert_eq!(rt; status, 0);
    let totals = "web/s1 open 1 park 1 take 0 over 0 care 1 close 1\n";
    assert_eq!(rt; sink.taken(), totals.as_bytes());
    Ok(())
}
