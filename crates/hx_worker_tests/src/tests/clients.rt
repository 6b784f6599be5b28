//! As many clients as a worker takes, and their stop.

use crate::tests::plans::silent;
use crate::tests::seats::{config_of, plain_bench};
use hx_base::{Millis, SessionNo};
use hx_record::LeftCause;
use hx_worker::NoEntry;
use std::test::Fail;

const WEB: &[u8] = b"listen web\n  bind :8080\n  server s1 127.0.0.1:9001\n";

#[test]
fn the_1025th_client_comes_back(rt: HostRuntime) -> Result<(), Fail> {
    let alloc = rt.alloc();
    let config = config_of(alloc, WEB)?;
    let mut bench = plain_bench(alloc, &config, Vec::new(alloc))?;
    for n in 1..=1_024u32 {
        let came = bench.come(silent(alloc, n), 0, Millis(0));
        assert_eq!(rt; came, Some(SessionNo(n)));
    }
    let link = bench.attach(silent(alloc, 7_777)).expect(&rt, "a link");
    let Some(Err(refused)) = bench.admit(link, 0, Millis(5)) else {
        return Err("one more was admitted")?;
    };
    assert_eq!(rt; refused.why, NoEntry::SessionsFull);
    assert_eq!(rt; refused.client.tag(), 7_777);
    // Nobody's session is touched by that.
    assert_eq!(rt; bench.next(SessionNo(0)), Some(SessionNo(1)));
    assert_eq!(rt; bench.next(SessionNo(1_023)), Some(SessionNo(1_024)));
    assert_eq!(rt; bench.next(SessionNo(1_024)), None);
    // Once one has gone, the client that came back is taken, and has a number of its own.
    assert!(rt; bench.stop_next().is_some());
    let Some(Ok(n)) = bench.admit(refused.client, 0, Millis(5)) else {
        return Err("it wasn't admitted")?;
    };
    assert_eq!(rt; n, SessionNo(1_025));
    assert_eq!(rt; bench.next(SessionNo(0)), Some(SessionNo(2)));
    Ok(())
}

#[test]
fn all_sessions_are_stopped_by_rising_number(rt: HostRuntime) -> Result<(), Fail> {
    let alloc = rt.alloc();
    let config = config_of(alloc, WEB)?;
    let mut bench = plain_bench(alloc, &config, Vec::new(alloc))?;
    for n in 1..=100u32 {
        assert!(rt; bench.come(silent(alloc, n), 0, Millis(0)).is_some());
    }
    for n in 1..=100u32 {
        let stopped = bench.stop_next().expect(&rt, "a session");
        assert_eq!(rt; stopped.left.session, SessionNo(n));
        assert_eq!(rt; stopped.left.cause, LeftCause::Stop);
        assert!(rt; stopped.served.is_none());
    }
    assert!(rt; bench.stop_next().is_none());
    let (_, buried) = bench.end();
    assert_eq!(rt; buried.len(), 100);
    for (link, n) in buried.iter().zip(1..=100u32) {
        assert_eq!(rt; link.tag(), n);
    }
    Ok(())
}
