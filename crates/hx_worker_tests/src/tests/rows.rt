//! The marks of a server's seat under each mode, and the line of its totals.

use crate::tests::marks::{care_close, care_take, close, gate, open, park, take, take_first};
use crate::tests::plans::{answers, asks};
use crate::tests::seats::{config_of, plain_bench, seat_marks};
use hx_base::{Millis, Totals};
use hx_stats::{Tally, report};
use std::test::Fail;

const SAFE: &[u8] = b"listen web\n  bind :8080\n  http-reuse safe\n  server s1 127.0.0.1:9001\n";

const AGGRESSIVE: &[u8] =
    b"listen web\n  bind :8080\n  http-reuse aggressive\n  server s1 127.0.0.1:9001\n";

const NEVER: &[u8] = b"listen web\n  bind :8080\n  http-reuse never\n  server s1 127.0.0.1:9001\n";

const ALWAYS: &[u8] =
    b"listen web\n  bind :8080\n  http-reuse always\n  server s1 127.0.0.1:9001\n";

#[test]
fn safe_opens_for_each_first_request(rt: HostRuntime) -> Result<(), Fail> {
    let alloc = rt.alloc();
    let config = config_of(alloc, SAFE)?;
    let plans = vec![in alloc; answers(alloc, 0, 2)?, answers(alloc, 0, 2)?]?;
    let mut bench = plain_bench(alloc, &config, plans)?;
    assert!(rt; bench.serve(asks(alloc, Millis(0), 1)?, 0, Millis(0)));
    assert!(rt; bench.serve(asks(alloc, Millis(10), 1)?, 0, Millis(10)));
    assert!(rt; bench.stop_next().is_none());
    assert_eq!(rt; bench.drain(0), Some(2));
    let (seats, _) = bench.end();
    let want = [
        open(1, 1),
        park(1, 1, 0, 1),
        open(2, 2),
        park(2, 2, 1, 1),
        gate(true),
        care_take(1, 0, 1),
        care_close(1),
        care_take(2, 1, 1),
        care_close(2),
    ];
    assert_eq!(rt; seat_marks(&seats, 0), want.as_slice());
    Ok(())
}

#[test]
fn aggressive_lends_what_was_used_twice_to_a_first_request(rt: HostRuntime) -> Result<(), Fail> {
    let alloc = rt.alloc();
    let config = config_of(alloc, AGGRESSIVE)?;
    let plans = vec![in alloc; answers(alloc, 0, 9)?, answers(alloc, 0, 9)?]?;
    let mut bench = plain_bench(alloc, &config, plans)?;
    assert!(rt; bench.serve(asks(alloc, Millis(0), 1)?, 0, Millis(0)));
    assert!(rt; bench.serve(asks(alloc, Millis(10), 2)?, 0, Millis(10)));
    assert!(rt; bench.serve(asks(alloc, Millis(20), 1)?, 0, Millis(20)));
    assert!(rt; bench.stop_next().is_none());
    assert_eq!(rt; bench.drain(0), Some(2));
    let (seats, _) = bench.end();
    let want = [
        open(1, 1),
        park(1, 1, 0, 1),
        open(2, 2),
        park(2, 2, 1, 1),
        take(2, 2, 1, 1),
        park(2, 2, 1, 2),
        take_first(3, 2, 1, 2),
        park(3, 2, 1, 3),
        gate(true),
        care_take(1, 0, 1),
        care_close(1),
        care_take(2, 1, 3),
        care_close(2),
    ];
    assert_eq!(rt; seat_marks(&seats, 0), want.as_slice());
    Ok(())
}

#[test]
fn never_closes_after_each_request(rt: HostRuntime) -> Result<(), Fail> {
    let alloc = rt.alloc();
    let config = config_of(alloc, NEVER)?;
    let plans = vec![in alloc; answers(alloc, 0, 2)?, answers(alloc, 0, 2)?]?;
    let mut bench = plain_bench(alloc, &config, plans)?;
    assert!(rt; bench.serve(asks(alloc, Millis(0), 1)?, 0, Millis(0)));
    assert!(rt; bench.serve(asks(alloc, Millis(10), 1)?, 0, Millis(10)));
    assert!(rt; bench.stop_next().is_none());
    assert_eq!(rt; bench.drain(0), Some(0));
    let (seats, _) = bench.end();
    let want = [open(1, 1), close(1, 1), open(2, 2), close(2, 2), gate(true)];
    assert_eq!(rt; seat_marks(&seats, 0), want.as_slice());
    Ok(())
}

#[test]
fn a_servers_totals_are_told_in_a_line(rt: HostRuntime) -> Result<(), Fail> {
    let alloc = rt.alloc();
    let config = config_of(alloc, ALWAYS)?;
    let plans = vec![in alloc; answers(alloc, 0, 1)?]?;
    let mut bench = plain_bench(alloc, &config, plans)?;
    assert!(rt; bench.serve(asks(alloc, Millis(0), 1)?, 0, Millis(0)));
    assert_eq!(rt; bench.drain(0), Some(1));
    let (seats, _) = bench.end();
    let totals: Totals = Tally::of(seat_marks(&seats, 0));
    assert_eq!(rt;
        report(alloc, &totals)?.as_slice(),
        b"open 1 park 1 take 0 over 0 care 1 close 1\n".as_slice()
    );
    Ok(())
}
