//! What no clause says: that the calls succeed with ample memory, and the numbers that come out at one seat.

mod bench;

use bench::{Bench, Card, Cards, purged, rules};
use hx_base::{ConnId, Millis, Mode, PlaceNo, ServerNo, SessionNo, ThreadNo};
use hx_plain::PlainSeat;
use hx_pool::{JournalSeat, NoPark, NoneOver, Seat, allowed, one_exchange};
use std::test::Fail;

#[test]
fn a_row_takes_64_and_a_drain_empties_it(rt: HostRuntime) -> Result<(), Fail> {
    let mut bench = Bench::new(rt.alloc(), rules(Mode::Always, None, 5000))?;
    for place in 0..64u8 {
        assert_eq!(rt; bench.park_new(), Ok(PlaceNo { row: 0, place }));
    }
    assert_eq!(rt; bench.park_new(), Err(NoPark::RowFull));
    bench.set_drain();
    for _ in 0..64u8 {
        assert!(rt; bench.drain_one());
    }
    assert!(rt; !bench.drain_one());
    assert_eq!(rt; bench.park_new(), Err(NoPark::Draining));
    bench.set_ready();
    assert_eq!(rt; bench.park_new(), Ok(PlaceNo { row: 0, place: 0 }));
    Ok(())
}

#[test]
fn a_park_is_refused_by_the_rules_and_the_count(rt: HostRuntime) -> Result<(), Fail> {
    let table = [
        (Mode::Never, None, 5000, Err(NoPark::Never)),
        (Mode::Always, Some(0), 5000, Err(NoPark::NoneKept)),
        (Mode::Always, None, 0, Err(NoPark::NoneKept)),
        (Mode::Always, Some(1), 5000, Err(NoPark::PoolFull(1))),
        (Mode::Safe, None, 5000, Ok(PlaceNo { row: 0, place: 1 })),
    ];
    for (mode, max, delay, second) in table {
        let mut bench = Bench::new(rt.alloc(), rules(mode, max, delay))?;
        let _first = bench.park_new();
        assert_eq!(rt; bench.park_new(), second);
    }
    Ok(())
}

#[test]
fn each_interval_leaves_half(rt: HostRuntime) -> Result<(), Fail> {
    let mut bench = Bench::new(rt.alloc(), rules(Mode::Always, None, 100))?;
    for _ in 0..5u8 {
        assert!(rt; bench.park_new().is_ok());
    }
    // From 1000 on: the moment, and how many go. None: no new interval.
    let table = [
        (500, None),
        (1099, None),
        (1100, Some(3)),
        (1150, None),
        (1200, Some(1)),
        (1300, Some(1)),
        (1400, Some(0)),
    ];
    let mut seat = bench.into_seat();
    for (now, gone) in table {
        assert_eq!(rt; purged(&mut seat, Millis(now)), gone, "at {now}");
    }
    let mut bench = Bench::new(rt.alloc(), rules(Mode::Always, None, 100))?;
    for _ in 0..5u8 {
        assert!(rt; bench.park_new().is_ok());
    }
    assert_eq!(rt; purged(&mut bench.into_seat(), Millis(1400)), Some(5));
    Ok(())
}

#[test]
fn a_first_request_under_aggressive_wants_two_uses(rt: HostRuntime) -> Result<(), Fail> {
    let mut bench = Bench::new(rt.alloc(), rules(Mode::Aggressive, None, 5000))?;
    assert!(rt; bench.park_new().is_ok());
    assert_eq!(rt; bench.use_again(true), None);
    assert_eq!(rt; bench.take_over(true), Some(NoneOver::BelowLow(1)));
    assert_eq!(rt; bench.use_again(false), Some(2));
    assert!(rt; bench.park_new().is_ok());
    assert_eq!(rt; bench.take_over(true), Some(NoneOver::NoneSeen));
    assert_eq!(rt; bench.use_again(true), Some(3));
    Ok(())
}

#[test]
fn a_caller_of_any_seat_runs_over_a_journal(rt: HostRuntime) -> Result<(), Fail> {
    let kept = rules(Mode::Always, None, 5000);
    let made: Result<PlainSeat<Card>, _> = PlainSeat::new(rt.alloc(), ServerNo(0), kept, Millis(0));
    let mut seat = JournalSeat::new(rt.alloc(), made?);
    let mut cards = Cards;
    assert!(rt; seat.reserve(2).is_ok());
    let closed = one_exchange(&mut seat, &mut cards, SessionNo(1));
    assert_eq!(rt; closed, Some(ConnId(1)));
    assert!(rt; seat.is_whole() && seat.marks().len() == 4);
    seat.clear();
    assert!(rt; seat.is_whole() && seat.marks().is_empty());
    Ok(())
}

#[test]
fn the_mode_allows_what_the_manual_says(rt: HostRuntime) {
    let table = [
        (Mode::Safe, true, 9, false),
        (Mode::Aggressive, true, 1, false),
        (Mode::Aggressive, true, 2, true),
        (Mode::Never, false, 2, false),
    ];
    for (mode, first, uses, want) in table {
        assert_eq!(rt; allowed(mode, first, uses), want);
    }
}

#[test]
fn a_journal_passes_each_call_on_and_keeps_its_marks(rt: HostRuntime) -> Result<(), Fail> {
    let kept = rules(Mode::Always, None, 100);
    let made: Result<PlainSeat<Card>, _> = PlainSeat::new(rt.alloc(), ServerNo(0), kept, Millis(0));
    let mut seat = JournalSeat::new(rt.alloc(), made?);
    assert!(rt; seat.reserve(8).is_ok());
    assert!(rt; seat.ready());
    let mut due = seat.due(Millis(100));
    assert!(rt; due.is_some());
    if let Some(quota) = &mut due {
        assert!(rt; seat.purge_next(quota).is_none());
    }
    assert_eq!(rt;
        seat.take_over(SessionNo(1), true).err(),
        Some(NoneOver::BelowLow(0))
    );
    seat.set_drain();
    assert!(rt; !seat.ready());
    assert!(rt; seat.drain_next().is_none());
    seat.set_ready();
    assert_eq!(rt; seat.thread(), ThreadNo(0));
    assert_eq!(rt; seat.rules().low, 2);
    assert_eq!(rt; seat.totals().opened, 0);
    assert!(rt; seat.is_whole());
    assert_eq!(rt; seat.marks().len(), 3);
    Ok(())
}
