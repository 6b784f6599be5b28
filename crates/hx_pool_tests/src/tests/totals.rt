//! The line of a server's totals, and how totals are counted and added.

use hx_base::{ConnId, PlaceNo, SessionNo, ThreadNo, Totals};
use hx_pool::Entry;
use hx_stats::{Tally, report};
use std::test::Fail;

const T: ThreadNo = ThreadNo(0);

const SESSION: SessionNo = SessionNo(1);

const CARETAKER: SessionNo = SessionNo(0);

const ID: ConnId = ConnId(1);

const PLACE: PlaceNo = PlaceNo { row: 0, place: 0 };

/// One connection is opened and parked, and closed once its server drains.
const MARKS: [Entry; 5] = [
    Entry::Open {
        t: T,
        n: SESSION,
        id: ID,
    },
    Entry::Park {
        t: T,
        n: SESSION,
        id: ID,
        place: PLACE,
        uses: 1,
    },
    Entry::SetGate {
        t: T,
        draining: true,
    },
    Entry::Take {
        t: T,
        n: CARETAKER,
        first: false,
        place: PLACE,
        id: ID,
        uses: 1,
    },
    Entry::Close {
        t: T,
        n: CARETAKER,
        id: ID,
    },
];

/// The totals of the entries, added to themselves.
fn doubled<C: Tally + Drop>(entries: &[Entry]) -> C {
    let mut totals = C::of(entries);
    totals.add(&C::of(entries));
    totals
}

#[test]
fn totals_are_told_in_a_line(rt: HostRuntime) -> Result<(), Fail> {
    let one: Totals = Tally::of(&MARKS);
    assert_eq!(rt;
        report(rt.alloc(), &one)?.as_slice(),
        "open 1 park 1 take 0 over 0 care 1 close 1\n".as_bytes()
    );
    let two: Totals = doubled(&MARKS);
    assert_eq!(rt;
        report(rt.alloc(), &two)?.as_slice(),
        "open 2 park 2 take 0 over 0 care 2 close 2\n".as_bytes()
    );
    Ok(())
}
