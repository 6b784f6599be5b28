//! Whole runs over memory.
ghost use Rattle.std.specs.Prelude.{IfOk};
ghost use Rattle.hx_doors.specs.Doors.{IsClient};
ghost use Rattle.hx_link.specs.MemoryNets.{IsPlan};

use super::{ANSWER, ASK, ROOM, cabinet_of, words_of};
use hx_base::{Bytes, Items, Millis, Piece, Plan, ServerNo, ThreadNo};
use hx_doors::MemoryDoor;
use hx_link::{MemoryLink, MemoryNet, MemorySink, MemorySource, StillClock};
use hx_serve::serve_main;
use std::alloc::Global;
use std::sync::Wait;
use std::test::Fail;
use std::thread::Threads;

const FILE: &str = "listen web
  bind :8080
  http-reuse always
  server s1 127.0.0.1:9001
";

/// Gives a text once so many bytes were sent on it, and may end behind others.
fn plan_of(
    alloc: Global,
    server: Option<ServerNo>,
    after: u64,
    text: &str,
    end: Option<(Millis, u64)>,
) -> Result<Plan, Fail>
    ensures { IfOk result IsPlan }
{
    let piece = Piece {
        at: Millis(0),
        after,
        bytes: Bytes::from_vec(Vec::from_slice(alloc, text.as_bytes())?),
    };
    Ok(Plan {
        line: 1,
        server,
        refuse: false,
        pieces: Items::from_vec(vec![in alloc; piece]?),
        end,
        room: None,
        fail: None,
    })
}

/// A client that asks once and ends behind the answer.
fn client(alloc: Global) -> Result<MemoryLink, Fail>
    ensures { IfOk result (λ l. IsClient l.state) }
{
    let plan = plan_of(alloc, None, 0, ASK, Some((Millis(0), 40)))?;
    Ok(MemoryLink::new(plan))
}

/// A door with one client, or with none.
fn door_of(alloc: Global, one: bool) -> Result<MemoryDoor<MemoryLink>, Fail> {
    if one {
        let client = client(alloc)?;
        Ok(MemoryDoor::new(vec![in alloc; (0, client)]?))
    } else {
        Ok(MemoryDoor::new(Vec::new(alloc)))
    }
}

/// The net of a thread. The first one can dial the server once.
fn net_of(alloc: Global, thread: u8) -> Result<MemoryNet, Fail> {
    let mut net = if thread == 0 {
        let plan = plan_of(alloc, Some(ServerNo(0)), 28, ANSWER, None)?;
        MemoryNet::new(alloc, vec![in alloc; plan]?, 8)?
    } else {
        MemoryNet::new(alloc, Vec::new(alloc), 8)?
    };
    net.turn_to(ThreadNo(thread));
    Ok(net)
}

fn nets_of(alloc: Global) -> Result<Vec<MemoryNet>, Fail> {
    let mut nets = Vec::new(alloc);
    for thread in 0..16 {
        nets.push(net_of(alloc, thread)?)?;
    }
    Ok(nets)
}

/// What a run is given.
#[derive(Clone, Copy)]
struct Case {
    words: &'static str,
    file: &'static str,
    orders: &'static str,
    /// One client comes.
    client: bool,
    /// Which read of the file, which read of the orders and which write of the sink fails, from 1; 0 for none.
    fails: (u64, u64, u64),
}

const QUIET: Case = Case {
    words: "--config f",
    file: FILE,
    orders: "stop\n",
    client: false,
    fails: (0, 0, 0),
};

/// The status of a run, and what it printed.
fn run<R: Threads + Wait + Sync>(
    rt: &R,
    alloc: Global,
    case: Case,
) -> Result<(u8, MemorySink), Fail> {
    let words = words_of(alloc, case.words)?;
    let mut cabinet = cabinet_of(alloc, case.file, case.fails.0)?;
    let orders = Vec::from_slice(alloc, case.orders.as_bytes())?;
    let mut orders = MemorySource::new(orders, vec![in alloc; case.fails.1]?);
    let mut door = door_of(alloc, case.client)?;
    let mut nets = nets_of(alloc)?;
    let mut sink = MemorySink::new(alloc, ROOM, vec![in alloc; case.fails.2]?)?;
    let status = serve_main(
        rt,
        alloc,
        words.as_slice(),
        &mut cabinet,
        &mut orders,
        &mut door,
        nets.as_mut_slice(),
        &StillClock(Millis(0)),
        &mut sink,
    );
    Ok((status, sink))
}

const NONE: &str = "web/s1 open 0 park 0 take 0 over 0 care 0 close 0\n";

const ONE: &str = "web/s1 open 1 park 1 take 0 over 0 care 1 close 1\n";

#[test]
fn a_run_that_is_stopped_tells_its_totals(rt: HostRuntime) -> Result<(), Fail> {
    let cases = [
        ("--config f", "stop\n", false, NONE),
        ("--config f", "stop", false, NONE),
        ("--config f", "stop\n", true, ONE),
        ("--config f --threads 3", "stop\n", true, ONE),
        ("--threads 16 --config f", "stop\nbogus\n", true, ONE),
        (
            "--config f",
            "drain web/s1\nready web/s1\nstop\n",
            false,
            NONE,
        ),
    ];
    for (words, orders, client, text) in cases {
        let case = Case {
            words,
            orders,
            client,
            ..QUIET
        };
        let (status, sink) = run(&rt, rt.alloc(), case)?;
        assert_eq!(rt; status, 0, "{words}");
        assert_eq!(rt; sink.taken(), text.as_bytes(), "{words}");
    }
    Ok(())
}

#[test]
fn orders_that_are_none_are_answered(rt: HostRuntime) -> Result<(), Fail> {
    let cases = [
        ("bogus\nstop\n", 1),
        ("drain web/s2\ndrain  web/s1\nready web\n\nSTOP\nstop", 5),
    ];
    for (orders, count) in cases {
        let (status, sink) = run(&rt, rt.alloc(), Case { orders, ..QUIET })?;
        assert_eq!(rt; status, 0, "{orders}");
        let mut rest = sink.taken();
        for _ in 0..count {
            rest = rest
                .strip_prefix(b"unknown order\n")
                .ok_or("a line of an order is missing")?;
        }
        assert_eq!(rt; rest, NONE.as_bytes(), "{orders}");
    }
    Ok(())
}

#[test]
fn each_failure_has_its_status(rt: HostRuntime) -> Result<(), Fail> {
    let bad = "listen web\n  http-reuse sometimes\n";
    let cases = [
        ("--config f --check", FILE, (0, 0, 0), 0, "config holds\n"),
        ("--config g", FILE, (0, 0, 0), 2, ""),
        ("--config f", FILE, (1, 0, 0), 2, ""),
        ("--config f", FILE, (0, 1, 0), 2, ""),
        ("--config f --check", FILE, (0, 0, 1), 3, ""),
        ("--config f", FILE, (0, 0, 1), 3, ""),
        ("--config f", bad, (0, 0, 0), 4, "config 2 2\n"),
        ("--config f --check", bad, (0, 0, 0), 4, "config 2 2\n"),
    ];
    for (words, file, fails, want, text) in cases {
        let case = Case {
            words,
            file,
            fails,
            ..QUIET
        };
        let (status, sink) = run(&rt, rt.alloc(), case)?;
        assert_eq!(rt; status, want, "{words}");
        assert_eq!(rt; sink.taken(), text.as_bytes(), "{words}");
    }
    Ok(())
}

#[test]
fn a_sink_that_fails_at_an_order_ends_the_run(rt: HostRuntime) -> Result<(), Fail> {
    let case = Case {
        orders: "bogus\n",
        fails: (0, 0, 1),
        ..QUIET
    };
    let (status, _sink) = run(&rt, rt.alloc(), case)?;
    assert_eq!(rt; status, 3);
    Ok(())
}

#[test]
fn wrong_words_are_told(rt: HostRuntime) -> Result<(), Fail> {
    let cases = [
        ("--bogus", "unexpected argument '--bogus' found"),
        (
            "--check",
            "the following required arguments were not provided:",
        ),
        (
            "--config f --threads 17",
            "invalid value '17' for '--threads <threads>'",
        ),
        (
            "--config f --threads 0",
            "invalid value '0' for '--threads <threads>'",
        ),
    ];
    for (words, text) in cases {
        let (status, sink) = run(&rt, rt.alloc(), Case { words, ..QUIET })?;
        assert_eq!(rt; status, 1, "{words}");
        let rest = sink
            .taken()
            .strip_prefix(b"error: ")
            .ok_or("it isn't told as a fault")?;
        assert!(rt; rest.starts_with(text.as_bytes()), "{words}");
    }
    Ok(())
}
