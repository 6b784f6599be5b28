//! What no clause says, and the memory implementations on worked values.
ghost use Rattle.std.specs.Prelude.{◌≡◌, ◌≤◌, All, IfOk, IfSome};
ghost use Rattle.hx_link.specs.MemoryNets.{IsPlan};

use hx_base::{Address, Bytes, ConnId, Host, Items, Millis, ServerNo, ThreadNo};
use hx_link::*;
use std::alloc::Global;
use std::io::{self, Read, Write};
use std::process::Abort;
use std::test::Fail;

#[test]
fn a_pipe_takes_what_fits_and_gives_its_bytes_in_order(rt: HostRuntime) -> Result<(), Fail> {
    let mut pipe = Pipe::new(rt.alloc(), 4)?;
    assert_eq!(rt; pipe.fill(b"abcde"), 4);
    pipe.drop_front(3);
    assert_eq!(rt; (pipe.len(), pipe.room()), (1, 3));
    // The ring wraps here.
    assert_eq!(rt; pipe.fill(b"efg"), 3);
    assert!(rt; pipe.whole().starts_with(b"defg"));
    assert_eq!(rt; pipe.fill(b"h"), 0);
    Ok(())
}

/// A link that gives `abcde` and takes at most two bytes a write.
fn narrow_link(alloc: Global) -> Result<MemoryLink, Fail> {
    let piece = Piece {
        at: Millis(0),
        after: 0,
        bytes: Bytes::from_vec(Vec::from_slice(alloc, b"abcde")?),
    };
    Ok(MemoryLink::new(Plan {
        line: 1,
        server: None,
        refuse: false,
        pieces: Items::from_vec(vec![in alloc; piece]?),
        end: None,
        room: Some(2),
        fail: None,
    }))
}

#[test]
fn bytes_move_between_a_link_and_a_pipe(rt: HostRuntime) -> Result<(), Fail> {
    let mut link = narrow_link(rt.alloc())?;
    let mut pipe = Pipe::new(rt.alloc(), 4)?;
    assert_eq!(rt; read_into(&mut link, Millis(0), &mut pipe), Got::Bytes(4));
    assert_eq!(rt; write_from(&mut link, Millis(0), &mut pipe), Put::Bytes(2));
    assert!(rt; pipe.whole().starts_with(b"cd"));
    assert_eq!(rt; read_into(&mut link, Millis(0), &mut pipe), Got::Bytes(1));
    assert!(rt; pipe.whole().starts_with(b"cde"));
    Ok(())
}

/// Two bytes at once, none after many, three more at 10 once two were sent, the end at 20 once three were.
fn some_plan(alloc: Global, room: Option<u64>, fail: Option<u64>) -> Result<Plan, Fail>
    ensures room { IfOk result (λ p. p.room ≡ room) }
    ensures fail { IfOk result (λ p. p.fail ≡ fail) }
{
    let mut pieces = Vec::new(alloc);
    for (at, after, bytes) in [(0, 0, "ab"), (0, 99, ""), (10, 2, "cde")] {
        pieces.push(Piece {
            at: Millis(at),
            after,
            bytes: Bytes::from_vec(bytes.as_bytes().to_vec(alloc)?),
        })?;
    }
    Ok(Plan {
        line: 7,
        server: None,
        refuse: false,
        pieces: Items::from_vec(pieces),
        end: Some((Millis(20), 3)),
        room,
        fail,
    })
}

/// A plan of a server without pieces.
fn server_plan(alloc: Global, line: u32, server: u16, refuse: bool) -> Plan
    ensures { IsPlan result }
{
    Plan {
        line,
        server: Some(ServerNo(server)),
        refuse,
        pieces: Items::from_vec(Vec::new(alloc)),
        end: None,
        room: None,
        fail: None,
    }
}

/// Plans of lines 1, 2 and 4 for server 0, of which the second refuses, and of line 3 for server 1.
fn server_plans(alloc: Global) -> Result<Vec<Plan>, Fail>
    ensures { IfOk result (λ plans. All IsPlan plans.items) }
{
    let plans = [
        server_plan(alloc, 1, 0, false),
        server_plan(alloc, 2, 0, true),
        server_plan(alloc, 3, 1, false),
        server_plan(alloc, 4, 0, false),
    ];
    Ok(Vec::from_array(alloc, plans)?)
}

const ADDRESS: Address = Address {
    host: Host::Local,
    port: 1,
};

#[test]
fn each_dial_uses_its_servers_next_plan(rt: HostRuntime) -> Result<(), Fail> {
    let mut net = MemoryNet::new(rt.alloc(), server_plans(rt.alloc())?, 1)?;
    // The server of a dial, and the line of the link that it gives.
    let rows = [
        (0, Some(1)),
        (1, Some(3)),
        (0, None),
        (0, Some(4)),
        (0, None),
        (1, None),
        (2, None),
    ];
    for (server, line) in rows {
        let dialled = net.dial(ServerNo(server), &ADDRESS, ConnId(9), Millis(0));
        assert_eq!(rt; dialled.as_ref().ok().map(|link| link.tag()), line);
        if let Ok(link) = dialled {
            net.bury(link);
        }
    }
    assert!(rt; !net.starved());
    // The second and the third burial are past the room.
    let mut lines = [0; 3];
    for (line, link) in lines.iter_mut().zip(net.into_buried()) {
        *line = link.tag();
    }
    assert_eq!(rt; lines, [1, 3, 4]);
    Ok(())
}

#[test]
fn the_named_attach_fails_and_no_other(rt: HostRuntime) -> Result<(), Fail> {
    let mut net = MemoryNet::new(rt.alloc(), server_plans(rt.alloc())?, 1)?;
    net.turn_to(ThreadNo(3));
    assert_eq!(rt; net.loop_no(), ThreadNo(3));
    let mut link = net
        .dial(ServerNo(0), &ADDRESS, ConnId(1), Millis(0))
        .ok()
        .ok_or("no link")?;
    net.fail_attach(2);
    for answer in [Ok(()), Err(NetFault), Ok(()), Ok(())] {
        net.detach(&mut link);
        assert_eq!(rt; net.attach(&mut link), answer);
    }
    net.pause(Millis(1));
    net.bury(link);
    Ok(())
}

/// Reads pieces of so many bytes until something else is answered.
fn read_until(
    rt: &impl Abort,
    link: &mut MemoryLink,
    now: u64,
    size: usize,
    into: &mut Vec<u8>,
) -> Result<Got, Fail> {
    let mut buffer = [0; 8];
    let chunk = &mut buffer[..size.clamp(1, 8)];
    for _ in 0..20 {
        match link.read(Millis(now), chunk) {
            Got::Bytes(n) => into.extend_from_slice(&chunk[..n])?,
            other => return Ok(other),
        }
    }
    assert!(rt; false, "it gives too much");
    Ok(Got::Failed)
}

#[test]
fn a_plan_is_given_in_any_cutting_at_its_moments(rt: HostRuntime) -> Result<(), Fail> {
    for size in [1, 2, 7] {
        let mut link = MemoryLink::new(some_plan(rt.alloc(), Some(1), None)?);
        let mut taken = Vec::new(rt.alloc());
        // The moment, what is written before the read, and what the reads end with and have given.
        let rows = [
            (0, "", Got::NotYet, "ab"),
            (10, "x", Got::NotYet, "ab"),
            (9, "y", Got::NotYet, "ab"),
            (10, "", Got::NotYet, "abcde"),
            (20, "", Got::NotYet, "abcde"),
            (19, "z", Got::NotYet, "abcde"),
            (20, "", Got::End, "abcde"),
            (20, "", Got::End, "abcde"),
        ];
        for (now, sent, answer, all) in rows {
            if !sent.is_empty() {
                assert_eq!(rt; link.write(Millis(now), sent.as_bytes()), Put::Bytes(1));
            }
            assert_eq!(rt;
                read_until(&rt, &mut link, now, size, &mut taken)?,
                answer,
                "at {now} by {size}"
            );
            assert_eq!(rt; taken.as_slice(), all.as_bytes());
        }
        // A write takes one byte at a time.
        assert_eq!(rt; link.write(Millis(20), b"pq"), Put::Bytes(1));
        let bytes = link.into_bytes()?;
        assert_eq!(rt; bytes.sent.as_slice(), b"xyzp".as_slice());
        assert_eq!(rt; bytes.taken.as_slice(), b"abcde".as_slice());
    }
    Ok(())
}

#[test]
fn the_named_call_fails_and_so_does_each_later_one(rt: HostRuntime) -> Result<(), Fail> {
    let mut link = MemoryLink::new(some_plan(rt.alloc(), None, Some(3))?);
    let mut byte = [0; 1];
    assert_eq!(rt; link.read(Millis(0), &mut byte), Got::Bytes(1));
    assert_eq!(rt; link.write(Millis(0), b"xyz"), Put::Bytes(3));
    assert_eq!(rt; link.read(Millis(0), &mut byte), Got::Failed);
    assert_eq!(rt; link.write(Millis(0), b"xyz"), Put::Failed);
    link.finish();
    assert!(rt; !link.starved());
    let bytes = link.into_bytes()?;
    assert_eq!(rt; bytes.sent.as_slice(), b"xyz".as_slice());
    assert_eq!(rt; bytes.taken.as_slice(), b"a".as_slice());
    Ok(())
}

#[test]
fn whole_texts_are_read_and_written_over_memory(rt: HostRuntime) -> Result<(), Fail> {
    let alloc = rt.alloc();
    // How many bytes are allowed, the call that fails, and the answer.
    let rows = [
        (5, 0, Some("abcd")),
        (4, 0, Some("abcd")),
        (3, 0, Some("abcd")),
        (2, 0, Some("abc")),
        (5, 1, None),
        (5, 2, None),
        (2, 2, Some("abc")),
    ];
    for (most, fails, answer) in rows {
        let mut source = MemorySource::new(b"abcd".to_vec(alloc)?, [fails].to_vec(alloc)?);
        match (read_all(alloc, &mut source, most), answer) {
            (Ok(text), Some(want)) => assert_eq!(rt; text.as_slice(), want.as_bytes(), "at {most}"),
            (got, want) => {
                assert_eq!(rt; got.err(), Some(ReadFault::Fault), "at {most}");
                assert_eq!(rt; want, None);
            }
        }
    }
    for (room, fails, taken, done) in [
        (4, 0, "abcd", true),
        (3, 0, "abc", false),
        (4, 1, "", false),
    ] {
        let mut sink = MemorySink::new(alloc, room, [fails].to_vec(alloc)?)?;
        assert_eq!(rt; write_all(&mut sink, b"abcd").is_ok(), done, "room {room}");
        assert_eq!(rt; sink.taken(), taken.as_bytes());
    }
    Ok(())
}

/// Gives or takes a byte a call, and fails the third.
#[derive(Drop)]
struct Third {
    calls: u8,
}

impl Third {
    fn call(&mut self) -> io::Result<usize>
        ensures { IfOk result (λ n. n ≤ 1) }
    {
        self.calls = self.calls.saturating_add(1);
        if self.calls == 3 {
            return Err(io::ErrorKind::Other.into());
        }
        Ok(if self.calls == 6 { 0 } else { 1 })
    }
}

impl Read for Third {
    fn read(&mut self, buf: &mut [u8]) -> io::Result<usize> {
        if buf.is_empty() {
            return Ok(0);
        }
        buf[0] = b'c';
        self.call()
    }
}

impl Write for Third {
    fn write(&mut self, buf: &[u8]) -> io::Result<usize> {
        if buf.is_empty() {
            return Ok(0);
        }
        self.call()
    }

    fn flush(&mut self) -> io::Result<()> {
        Ok(())
    }
}

#[test]
fn a_reader_and_a_writer_of_std_fail_in_mid_stream_and_go_on(rt: HostRuntime) -> Result<(), Fail> {
    let mut reading = Reading::new(Third { calls: 0 });
    let mut writing = Writing::new(Third { calls: 0 });
    let mut into = [0; 4];
    let rows = [
        (Got::Bytes(1), Put::Bytes(1)),
        (Got::Bytes(1), Put::Bytes(1)),
        (Got::Failed, Put::Failed),
        (Got::Bytes(1), Put::Bytes(1)),
        (Got::Bytes(1), Put::Bytes(1)),
        (Got::End, Put::Failed),
        (Got::End, Put::Bytes(1)),
    ];
    for (got, put) in rows {
        assert_eq!(rt; reading.read(&mut into), got);
        assert_eq!(rt; writing.write(b"ab"), put);
    }
    assert_eq!(rt; into, *b"c\0\0\0");
    let text = b"abc";
    let mut whole = Reading::new(text.as_slice());
    assert_eq!(rt;
        read_all(rt.alloc(), &mut whole, 9).ok().map(|t| t.len()),
        Some(3)
    );
    assert_eq!(rt; StillClock(Millis(5)).now(), Millis(5));
    Ok(())
}
