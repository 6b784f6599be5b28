//! Rounds, drains and stops over several servers.

use crate::tests::marks::{care_close, care_take, close, gate, open, park, round};
use crate::tests::plans::{answers, answers_from, asks};
use crate::tests::seats::{PlainBench, StoredSeat, config_of, plain_bench, seat_marks};
use hx_base::{ConnId, Millis, NoMemory, Order, ServerNo, SessionNo, Totals};
use hx_link::{MemoryLink, Plan};
use hx_record::{CutCause, Kind, LeftCause};
use hx_stats::Tally;
use std::alloc::Global;
use std::test::Fail;

/// s1 is a's, s2 and s3 are b's in turn.
const THREE: &[u8] = b"listen a
  bind :8080
  http-reuse safe
  server s1 127.0.0.1:9001 pool-purge-delay 100
listen b
  bind :8081
  http-reuse safe
  server s2 127.0.0.1:9002 pool-purge-delay 200
  server s3 127.0.0.1:9003
";

const ONE: &[u8] = b"listen web\n  bind :8080\n  http-reuse safe\n  server s1 127.0.0.1:9001\n";

/// The connections, by server and number, in the order in which rounds at 100, 200 and 1000 and a
/// drain of s3 bury them.
const PURGED_THEN_DRAINED: [(u16, u64); 11] = [
    (0, 1),
    (0, 2),
    (0, 3),
    (0, 4),
    (1, 1),
    (1, 2),
    (0, 5),
    (1, 3),
    (2, 1),
    (2, 2),
    (2, 3),
];

/// Adds plans of so many connections to a server, each of which answers once.
fn add_plans(alloc: Global, plans: &mut Vec<Plan>, server: u16, count: u8) -> Result<(), NoMemory> {
    for _ in 0..count {
        plans.push(answers(alloc, server, 1)?)?;
    }
    Ok(())
}

/// Plans of so many connections to each server, each of which answers once.
fn plans_of(alloc: Global, counts: [u8; 3]) -> Result<Vec<Plan>, NoMemory> {
    let [first, second, third] = counts;
    let mut plans = Vec::new(alloc);
    add_plans(alloc, &mut plans, 0, first)?;
    add_plans(alloc, &mut plans, 1, second)?;
    add_plans(alloc, &mut plans, 2, third)?;
    Ok(plans)
}

/// So many clients come to a frontend, one after the other, and each is served.
fn serve(
    bench: &mut PlainBench<'_>,
    alloc: Global,
    front: u16,
    count: u8,
) -> Result<(), &'static str> {
    for _ in 0..count {
        let Ok(plan) = asks(alloc, Millis(0), 1) else {
            return Err("no memory for a client");
        };
        if !bench.serve(plan, front, Millis(0)) {
            return Err("a client wasn't served");
        }
    }
    Ok(())
}

/// For which server and under which number the links of connections were dialled, in order.
fn dials_of(alloc: Global, links: &[MemoryLink]) -> Result<Vec<(u16, u64)>, NoMemory> {
    let mut dials = Vec::new(alloc);
    for link in links {
        if let Some((server, id)) = link.dial() {
            dials.push((server.0, id.0))?;
        }
    }
    Ok(dials)
}

/// How many connections of a server were opened, and how many were closed.
fn opened_and_closed(seats: &[StoredSeat], server: usize) -> (u64, u64) {
    let totals: Totals = Tally::of(seat_marks(seats, server));
    (totals.opened, totals.closed)
}

#[test]
fn each_server_is_purged_by_its_own_delay(rt: HostRuntime) -> Result<(), Fail> {
    let alloc = rt.alloc();
    let config = config_of(alloc, THREE)?;
    let mut bench = plain_bench(alloc, &config, plans_of(alloc, [5, 3, 3])?)?;
    serve(&mut bench, alloc, 0, 5)?;
    serve(&mut bench, alloc, 1, 6)?;
    // Of s1's 5 go 3 at 100 and 1 at 200, of s2's 3 go 2 at 200, and the last of both at 1000.
    for (now, gone) in [
        (0, 0),
        (99, 0),
        (100, 3),
        (150, 0),
        (200, 3),
        (1_000, 2),
        (1_000, 0),
    ] {
        assert_eq!(rt; bench.tick(Millis(now)), gone, "at {now}");
    }
    assert_eq!(rt; bench.drain(0), Some(0));
    assert_eq!(rt; bench.drain(2), Some(3));
    assert_eq!(rt; bench.order(Order::Ready(ServerNo(2))), Some(0));
    assert_eq!(rt; bench.drain(3), None);
    let (seats, buried) = bench.end();
    for (server, count) in [(0, 5), (1, 3), (2, 3)] {
        assert_eq!(rt;
            opened_and_closed(&seats, server),
            (count, count),
            "at {server}"
        );
    }
    assert_eq!(rt; buried.len(), 22);
    assert_eq!(rt;
        dials_of(alloc, &buried)?.as_slice(),
        PURGED_THEN_DRAINED.as_slice()
    );
    Ok(())
}

#[test]
fn a_round_leaves_its_marks_at_the_servers_that_are_due(rt: HostRuntime) -> Result<(), Fail> {
    let alloc = rt.alloc();
    let config = config_of(alloc, THREE)?;
    let mut bench = plain_bench(alloc, &config, plans_of(alloc, [2, 1, 1])?)?;
    serve(&mut bench, alloc, 0, 2)?;
    serve(&mut bench, alloc, 1, 2)?;
    assert_eq!(rt; bench.tick(Millis(300)), 3);
    assert_eq!(rt; bench.drain(2), Some(1));
    let (seats, _) = bench.end();
    let first = [
        open(1, 1),
        park(1, 1, 0, 1),
        open(2, 2),
        park(2, 2, 1, 1),
        round(3, 0),
        care_take(1, 0, 1),
        care_close(1),
        care_take(2, 1, 1),
        care_close(2),
    ];
    let second = [
        open(3, 1),
        park(3, 1, 0, 1),
        round(1, 0),
        care_take(1, 0, 1),
        care_close(1),
    ];
    let third = [
        open(4, 1),
        park(4, 1, 0, 1),
        gate(true),
        care_take(1, 0, 1),
        care_close(1),
    ];
    assert_eq!(rt; seat_marks(&seats, 0), first.as_slice());
    assert_eq!(rt; seat_marks(&seats, 1), second.as_slice());
    assert_eq!(rt; seat_marks(&seats, 2), third.as_slice());
    Ok(())
}

#[test]
fn a_drain_leaves_what_is_in_use_to_its_session(rt: HostRuntime) -> Result<(), Fail> {
    let alloc = rt.alloc();
    let config = config_of(alloc, ONE)?;
    let plans = vec![in alloc;
        answers(alloc, 0, 1)?,
        answers_from(alloc, Millis(50), 0, 1)?,
    ]?;
    let mut bench = plain_bench(alloc, &config, plans)?;
    serve(&mut bench, alloc, 0, 2)?;
    assert_eq!(rt; bench.next(SessionNo(0)), Some(SessionNo(2)));
    assert_eq!(rt; bench.drain(0), Some(1));
    assert!(rt; bench.go_on(SessionNo(2), Millis(50)));
    assert_eq!(rt; bench.next(SessionNo(0)), None);
    let (seats, _) = bench.end();
    let want = [
        open(1, 1),
        park(1, 1, 0, 1),
        open(2, 2),
        gate(true),
        care_take(1, 0, 1),
        care_close(1),
        close(2, 2),
    ];
    assert_eq!(rt; seat_marks(&seats, 0), want.as_slice());
    Ok(())
}

#[test]
fn a_stop_closes_what_each_session_has(rt: HostRuntime) -> Result<(), Fail> {
    let alloc = rt.alloc();
    let config = config_of(alloc, THREE)?;
    let plans = vec![in alloc;
        answers(alloc, 0, 0)?,
        answers(alloc, 1, 0)?,
        answers(alloc, 2, 0)?,
    ]?;
    let mut bench = plain_bench(alloc, &config, plans)?;
    serve(&mut bench, alloc, 0, 1)?;
    serve(&mut bench, alloc, 1, 2)?;
    for n in 1..=3u32 {
        let stopped = bench.stop_next().expect(&rt, "a session");
        assert_eq!(rt; stopped.left.session, SessionNo(n));
        assert_eq!(rt; stopped.left.cause, LeftCause::Stop);
        let served = stopped.served.expect(&rt, "a record");
        assert!(rt; matches!(served.kind, Kind::Cut(_, CutCause::Stop)));
    }
    assert!(rt; bench.stop_next().is_none());
    let (seats, buried) = bench.end();
    for (server, n) in [(0, 1), (1, 2), (2, 3)] {
        assert_eq!(rt;
            seat_marks(&seats, server),
            [open(n, 1), close(n, 1)].as_slice()
        );
    }
    assert_eq!(rt; buried.len(), 6);
    // A connection's link is buried before its client's.
    for (link, server) in buried
        .iter()
        .zip([Some(0), None, Some(1), None, Some(2), None])
    {
        assert_eq!(rt;
            link.dial(),
            server.map(|server| (ServerNo(server), ConnId(1)))
        );
    }
    Ok(())
}
