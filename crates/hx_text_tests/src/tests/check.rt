//! A replayed exchange breaks no rule, and what is wrong in one place of it is told by its rule and line.
ghost use Rattle.std.specs.Prelude.{All, IsTrue, IfOk};
ghost use Rattle.hx_script.specs.PrintedForm.{IsToldMark, IsToldRecord};

use crate::tests::transcripts::{Parts, bytes, transcript};
use hx_base::{
    ConnId, Millis, Mode, PlaceNo, PoolRules, ServerNo, SessionNo, Span, ThreadNo, Totals,
};
use hx_check::{check_by_tables, check_transcript};
use hx_pool::Entry;
use hx_record::{Carried, CutCause, Kind, Left, LeftCause, Served, Told};
use std::alloc::Global;
use std::process::Abort;
use std::test::Fail;

/// A transcript of one server, one client and one connection.
#[derive(Clone, Copy)]
struct Case<'a> {
    /// What is wrong.
    name: &'static str,
    rules: PoolRules,
    marks: &'a [Entry],
    records: &'a [Told],
    /// What was read of the client, and what it was given.
    client: (&'static [u8], &'static [u8]),
    /// What was sent on the connection, and what was read of it.
    conn: (&'static [u8], &'static [u8]),
    totals: Totals,
}

const T: ThreadNo = ThreadNo(0);

const CARETAKER: SessionNo = SessionNo(0);

const ONE: SessionNo = SessionNo(1);

const TWO: SessionNo = SessionNo(2);

const FIRST: ConnId = ConnId(1);

const PLACE: PlaceNo = PlaceNo { row: 0, place: 0 };

const NEXT_PLACE: PlaceNo = PlaceNo { row: 0, place: 1 };

const OPEN: Entry = Entry::Open {
    t: T,
    n: ONE,
    id: FIRST,
};

const PARK: Entry = Entry::Park {
    t: T,
    n: ONE,
    id: FIRST,
    place: PLACE,
    uses: 1,
};

const DRAIN: Entry = Entry::SetGate {
    t: T,
    draining: true,
};

const TAKE: Entry = Entry::Take {
    t: T,
    n: CARETAKER,
    first: false,
    place: PLACE,
    id: FIRST,
    uses: 1,
};

const CLOSE: Entry = Entry::Close {
    t: T,
    n: CARETAKER,
    id: FIRST,
};

const MARKS: [Entry; 5] = [OPEN, PARK, DRAIN, TAKE, CLOSE];

const RULES: PoolRules = PoolRules {
    mode: Mode::Always,
    max: None,
    low: 0,
    delay: Millis(5000),
};

const CARRY: Carried = Carried {
    server: ServerNo(0),
    id: FIRST,
    nth: 1,
    sent: Span { from: 0, to: 28 },
    took: Span { from: 0, to: 40 },
    closing: false,
};

const EXCHANGE: Served = Served {
    worker: T,
    session: ONE,
    number: 1,
    ask: Span { from: 0, to: 28 },
    gave: Span { from: 0, to: 40 },
    kind: Kind::Passed(CARRY),
};

const PASS: Told = Told::Served(EXCHANGE);

const LEAVING: Left = Left {
    worker: T,
    session: ONE,
    ask: Span { from: 28, to: 28 },
    cause: LeftCause::End,
};

const LEAVE: Told = Told::Left(LEAVING);

const RECORDS: [Told; 2] = [PASS, LEAVE];

const ASK: &[u8] = b"GET /a HTTP/1.1\r\nHost: h\r\n\r\n";

const ANSWER: &[u8] = b"HTTP/1.1 200 OK\r\nContent-Length: 2\r\n\r\nhi";

const OTHER_ANSWER: &[u8] = b"HTTP/1.1 200 OK\r\nContent-Length: 2\r\n\r\nho";

const LATE_ANSWER: &[u8] = b"XHTTP/1.1 200 OK\r\nContent-Length: 2\r\n\r\nhi";

const SUMS: Totals = Totals {
    opened: 1,
    parked: 1,
    taken: 0,
    over: 0,
    care: 1,
    closed: 1,
};

/// The exchange as it was replayed.
const REPLAYED: Case<'static> = Case {
    name: "nothing",
    rules: RULES,
    marks: &MARKS,
    records: &RECORDS,
    client: (ASK, ANSWER),
    conn: (ASK, ANSWER),
    totals: SUMS,
};

fn is_told_mark(mark: Entry) -> bool
    ensures { IsTrue result → IsToldMark mark }
{
    match mark {
        Entry::Take { n, first, .. } => n != CARETAKER || !first,
        Entry::Open { .. }
        | Entry::Park { .. }
        | Entry::Close { .. }
        | Entry::SetGate { .. }
        | Entry::Round { .. } => true,
        _ => false,
    }
}

fn marks_of(alloc: Global, marks: &[Entry]) -> Result<Vec<Entry>, Fail>
    ensures { IfOk result (λ v. All IsToldMark v.items) }
{
    let mut told = Vec::new(alloc);
    for mark in marks {
        if !is_told_mark(*mark) {
            return Err("no mark")?;
        }
        told.push(*mark)?;
    }
    Ok(told)
}

fn is_told_record(told: Told) -> bool
    ensures { IsTrue result → IsToldRecord 1 told }
{
    match told {
        Told::Left(_) => true,
        Told::Served(served) => match served.kind {
            Kind::Own(_) => true,
            Kind::Passed(c) => c.server == ServerNo(0),
            Kind::Cut(c, why) => {
                c.server == ServerNo(0) && (c.closing || why != CutCause::Early)
            }
        },
    }
}

fn records_of(alloc: Global, records: &[Told]) -> Result<Vec<Told>, Fail>
    ensures { IfOk result (λ v. All (IsToldRecord 1) v.items) }
{
    let mut all = Vec::new(alloc);
    for told in records {
        if !is_told_record(*told) {
            return Err("no record")?;
        }
        all.push(*told)?;
    }
    Ok(all)
}

/// The rule that is broken and its line, or zeros; with tables and without.
fn broken_of(alloc: Global, case: Case) -> Result<(u8, u32), Fail> {
    let parts = Parts {
        rules: case.rules,
        marks: marks_of(alloc, case.marks)?,
        records: records_of(alloc, case.records)?,
        client: (bytes(alloc, case.client.0)?, bytes(alloc, case.client.1)?),
        conn: (bytes(alloc, case.conn.0)?, bytes(alloc, case.conn.1)?),
        totals: case.totals,
    };
    let t = transcript(alloc, parts)?;
    let broken = check_transcript(&t);
    if check_by_tables(alloc, &t)? != broken {
        return Err("by tables something else is found")?;
    }
    match broken {
        None => Ok((0, 0)),
        Some(broken) => Ok((broken.rule, broken.line)),
    }
}

/// Each breaks the rule at its line.
fn show(rt: &impl Abort, alloc: Global, rule: u8, cases: &[(Case, u32)]) -> Result<(), Fail> {
    for (case, line) in cases {
        let name = case.name;
        assert_eq!(rt; broken_of(alloc, *case)?, (rule, *line), "{name}");
    }
    Ok(())
}

#[test]
fn a_replayed_exchange_breaks_no_rule(rt: HostRuntime) -> Result<(), Fail> {
    let at_the_limit = Case {
        name: "as many rest as may",
        rules: PoolRules {
            max: Some(1),
            ..RULES
        },
        ..REPLAYED
    };
    show(&rt, rt.alloc(), 0, &[(REPLAYED, 0), (at_the_limit, 0)])
}

/// A take at a place where nothing rests.
const ELSEWHERE: Entry = Entry::Take {
    t: T,
    n: CARETAKER,
    first: false,
    place: NEXT_PLACE,
    id: FIRST,
    uses: 1,
};

/// A close by a session whose connection it isn't.
const BY_ANOTHER: Entry = Entry::Close {
    t: T,
    n: ONE,
    id: FIRST,
};

/// A park with two uses more.
const USED_TWICE: Entry = Entry::Park {
    t: T,
    n: ONE,
    id: FIRST,
    place: PLACE,
    uses: 2,
};

/// An open of a connection that isn't the next.
const NOT_NEXT: Entry = Entry::Open {
    t: T,
    n: ONE,
    id: ConnId(2),
};

#[test]
fn marks_that_are_no_steps_break_the_first_rule(rt: HostRuntime) -> Result<(), Fail> {
    let cases = [
        (
            "a take where nothing rests",
            [OPEN, PARK, DRAIN, ELSEWHERE, CLOSE],
            6,
        ),
        (
            "a close by another session",
            [OPEN, PARK, DRAIN, TAKE, BY_ANOTHER],
            7,
        ),
        (
            "a park with two more uses",
            [OPEN, USED_TWICE, DRAIN, TAKE, CLOSE],
            4,
        ),
        (
            "an open that isn't the next",
            [NOT_NEXT, PARK, DRAIN, TAKE, CLOSE],
            3,
        ),
    ];
    for (name, marks, line) in cases {
        let case = Case {
            name,
            marks: &marks,
            ..REPLAYED
        };
        show(&rt, rt.alloc(), 1, &[(case, line)])?;
    }
    Ok(())
}

#[test]
fn marks_against_the_mode_break_the_second_rule(rt: HostRuntime) -> Result<(), Fail> {
    let never = Case {
        name: "a park under never",
        rules: PoolRules {
            mode: Mode::Never,
            ..RULES
        },
        ..REPLAYED
    };
    let shared = Entry::Take {
        t: T,
        n: TWO,
        first: true,
        place: PLACE,
        id: FIRST,
        uses: 1,
    };
    let safe = Case {
        name: "a first request on another session's connection under safe",
        rules: PoolRules {
            mode: Mode::Safe,
            ..RULES
        },
        marks: &[OPEN, PARK, shared],
        ..REPLAYED
    };
    show(&rt, rt.alloc(), 2, &[(never, 4), (safe, 5)])
}

#[test]
fn parks_past_the_limit_break_the_third_rule(rt: HostRuntime) -> Result<(), Fail> {
    let none = Case {
        name: "none may rest",
        rules: PoolRules {
            max: Some(0),
            ..RULES
        },
        ..REPLAYED
    };
    let second = ConnId(2);
    let open = Entry::Open {
        t: T,
        n: TWO,
        id: second,
    };
    let park = Entry::Park {
        t: T,
        n: TWO,
        id: second,
        place: NEXT_PLACE,
        uses: 1,
    };
    let one = Case {
        name: "one may rest",
        rules: PoolRules {
            max: Some(1),
            ..RULES
        },
        marks: &[OPEN, PARK, open, park],
        ..REPLAYED
    };
    show(&rt, rt.alloc(), 3, &[(none, 4), (one, 6)])
}

#[test]
fn records_that_are_not_true_break_the_fourth_rule(rt: HostRuntime) -> Result<(), Fail> {
    let given = Case {
        name: "another answer is given",
        client: (ASK, OTHER_ANSWER),
        ..REPLAYED
    };
    let asked = Told::Served(Served {
        ask: Span { from: 0, to: 27 },
        ..EXCHANGE
    });
    let past = Told::Served(Served {
        kind: Kind::Passed(Carried {
            took: Span { from: 0, to: 41 },
            ..CARRY
        }),
        ..EXCHANGE
    });
    let own = Told::Served(Served {
        kind: Kind::Own(418),
        ..EXCHANGE
    });
    let left = Told::Left(Left {
        ask: Span { from: 28, to: 29 },
        ..LEAVING
    });
    show(&rt, rt.alloc(), 4, &[(given, 9)])?;
    let cases = [
        ("the request isn't whole", [asked, LEAVE], 9),
        ("a range past the bytes", [past, LEAVE], 9),
        ("a status without an own answer", [own, LEAVE], 9),
        ("a left line past the bytes", [PASS, left], 10),
    ];
    for (name, records, line) in cases {
        let case = Case {
            name,
            records: &records,
            ..REPLAYED
        };
        show(&rt, rt.alloc(), 4, &[(case, line)])?;
    }
    Ok(())
}

#[test]
fn ranges_that_do_not_follow_break_the_fifth_rule(rt: HostRuntime) -> Result<(), Fail> {
    let again = Told::Left(Left {
        ask: Span { from: 27, to: 28 },
        ..LEAVING
    });
    let second = Told::Served(Served {
        kind: Kind::Passed(Carried { nth: 2, ..CARRY }),
        ..EXCHANGE
    });
    let cases = [
        ("a record behind the left line", [LEAVE, PASS], 9),
        ("the last range begins too early", [PASS, again], 10),
        ("the first exchange is missing", [second, LEAVE], 14),
    ];
    for (name, records, line) in cases {
        let case = Case {
            name,
            records: &records,
            ..REPLAYED
        };
        show(&rt, rt.alloc(), 5, &[(case, line)])?;
    }
    Ok(())
}

#[test]
fn ranges_that_leave_a_gap_break_the_fifth_rule(rt: HostRuntime) -> Result<(), Fail> {
    let late = Told::Served(Served {
        kind: Kind::Passed(Carried {
            took: Span { from: 1, to: 41 },
            ..CARRY
        }),
        ..EXCHANGE
    });
    let missing = Case {
        name: "no left line",
        records: &[PASS],
        ..REPLAYED
    };
    show(&rt, rt.alloc(), 5, &[(missing, 11)])?;
    let passed_over = Case {
        name: "a byte that was read stands in no range",
        records: &[late, LEAVE],
        conn: (ASK, LATE_ANSWER),
        ..REPLAYED
    };
    show(&rt, rt.alloc(), 5, &[(passed_over, 15)])
}

#[test]
fn other_totals_break_the_sixth_rule(rt: HostRuntime) -> Result<(), Fail> {
    let opened = Case {
        name: "one open too many",
        totals: Totals { opened: 2, ..SUMS },
        ..REPLAYED
    };
    let closed = Case {
        name: "one close too few",
        totals: Totals { closed: 0, ..SUMS },
        ..REPLAYED
    };
    show(&rt, rt.alloc(), 6, &[(opened, 17), (closed, 17)])
}
