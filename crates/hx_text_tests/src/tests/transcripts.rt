//! Whole printed transcripts, typed from the format.
ghost use Rattle.std.specs.Prelude.{◌≡◌, All, IfOk};
ghost use Rattle.hx_script.specs.PrintedForm.{IsToldMark, IsToldKind, IsToldRecord};

use hx_base::{
    Bytes, ConnId, Items, Millis, Mode, NoMemory, PlaceNo, PoolRules, ServerNo, SessionNo, Span,
    ThreadNo, Totals,
};
use hx_pool::Entry;
use hx_record::{Carried, ClientBytes, ConnBytes, CutCause, Kind, Left, LeftCause, Served, Told};
use hx_script::{ServerPart, Transcript, print_transcript};
use std::alloc::Global;
use std::test::Fail;

/// What a transcript of one server, one client and one connection has.
#[derive(Drop)]
pub(crate) struct Parts {
    pub(crate) rules: PoolRules,
    pub(crate) marks: Vec<Entry>,
    pub(crate) records: Vec<Told>,
    pub(crate) client: (Bytes, Bytes),
    pub(crate) conn: (Bytes, Bytes),
    pub(crate) totals: Totals,
}

pub(crate) fn bytes(alloc: Global, text: &[u8]) -> Result<Bytes, NoMemory>
    ensures { IfOk result (λ b. b ≡ text.now) }
{
    Ok(Items::from_vec(Vec::from_slice(alloc, text)?))
}

pub(crate) fn transcript(alloc: Global, parts: Parts) -> Result<Transcript, NoMemory>
    requires marks { All IsToldMark parts.marks.items }
    requires records { All (IsToldRecord 1) parts.records.items }
{
    let Parts {
        rules,
        marks,
        records,
        client,
        conn,
        totals,
    } = parts;
    let part = ServerPart {
        back: bytes(alloc, b"web")?,
        server: bytes(alloc, b"s1")?,
        rules,
        marks: Items::from_vec(marks),
    };
    let client = ClientBytes {
        worker: ThreadNo(0),
        session: SessionNo(1),
        took: client.0,
        gave: client.1,
    };
    let conn = ConnBytes {
        server: ServerNo(0),
        id: ConnId(1),
        sent: conn.0,
        took: conn.1,
    };
    let servers = Items::from_vec(vec![in alloc; part]?);
    let clients = Items::from_vec(vec![in alloc; client]?);
    let conns = Items::from_vec(vec![in alloc; conn]?);
    let totals = Items::from_vec(vec![in alloc; totals]?);
    Ok(Transcript {
        servers,
        records: Items::from_vec(records),
        clients,
        conns,
        totals,
    })
}

fn carried(sent: Span, took: Span, closing: bool) -> Carried
    ensures server { result.server.0 ≡ 0 }
    ensures closing { result.closing ≡ closing }
{
    Carried {
        server: ServerNo(0),
        id: ConnId(1),
        nth: 1,
        sent,
        took,
        closing,
    }
}

fn served(session: u32, number: u64, ask: Span, gave: Span, kind: Kind) -> Told
    requires { IsToldKind 1 kind }
    ensures { IsToldRecord 1 result }
{
    Told::Served(Served {
        worker: ThreadNo(0),
        session: SessionNo(session),
        number,
        ask,
        gave,
        kind,
    })
}

fn span(from: u64, to: u64) -> Span {
    Span { from, to }
}

/// One exchange, then the drain.
const WORKED: &[u8] = br#"hx-transcript 1
server web/s1 always -1 0 5000
open 0.1 1
park 0.1 1 0:0 1
gate 0 drain
take 0.0 1 0:0 1 later
close 0.0 1
records
pass 0.1 1 web/s1#1 1 ask 0-28 sent 0-28 took 0-40 gave 0-40 keep
left 0.1 28-28 end
links
client 0.1 took "GET /a HTTP/1.1\r\nHost: h\r\n\r\n"
client 0.1 gave "HTTP/1.1 200 OK\r\nContent-Length: 2\r\n\r\nhi"
conn web/s1#1 sent "GET /a HTTP/1.1\r\nHost: h\r\n\r\n"
conn web/s1#1 took "HTTP/1.1 200 OK\r\nContent-Length: 2\r\n\r\nhi"
totals
web/s1 open 1 park 1 take 0 over 0 care 1 close 1
end
"#;

/// One connection is opened, rests, and is closed by the caretaker.
fn worked_marks(alloc: Global) -> Result<Vec<Entry>, Fail>
    ensures { IfOk result (λ v. All IsToldMark v.items) }
{
    let (t, n, id) = (ThreadNo(0), SessionNo(1), ConnId(1));
    let care = SessionNo(0);
    let place = PlaceNo { row: 0, place: 0 };
    Ok(vec![in alloc;
        Entry::Open { t, n, id },
        Entry::Park {
            t,
            n,
            id,
            place,
            uses: 1
        },
        Entry::SetGate { t, draining: true },
        Entry::Take {
            t,
            n: care,
            first: false,
            place,
            id,
            uses: 1
        },
        Entry::Close { t, n: care, id },
    ]?)
}

#[test]
fn the_worked_exchange(rt: HostRuntime) -> Result<(), Fail> {
    let alloc = rt.alloc();
    let (ask, answer) = (
        b"GET /a HTTP/1.1\r\nHost: h\r\n\r\n",
        b"HTTP/1.1 200 OK\r\nContent-Length: 2\r\n\r\nhi",
    );
    let passed = carried(span(0, 28), span(0, 40), false);
    let parts = Parts {
        rules: PoolRules {
            mode: Mode::Always,
            max: None,
            low: 0,
            delay: Millis(5000),
        },
        marks: worked_marks(alloc)?,
        records: vec![in alloc;
            served(1, 1, span(0, 28), span(0, 40), Kind::Passed(passed)),
            Told::Left(Left {
                worker: ThreadNo(0),
                session: SessionNo(1),
                ask: span(28, 28),
                cause: LeftCause::End
            }),
        ]?,
        client: (bytes(alloc, ask)?, bytes(alloc, answer)?),
        conn: (bytes(alloc, ask)?, bytes(alloc, answer)?),
        totals: Totals {
            opened: 1,
            parked: 1,
            taken: 0,
            over: 0,
            care: 1,
            closed: 1,
        },
    };
    let text = print_transcript(alloc, &transcript(alloc, parts)?)?;
    assert_eq!(rt; text.as_slice(), WORKED);
    Ok(())
}

/// Each other form of line, and each form of a byte.
const OTHERS: &[u8] = br#"hx-transcript 1
server web/s1 safe 20 2 10000
gate 15 ready
round 0 4 2
take 0.1 1 15:63 2 first
records
cut 0.1 1 web/s1#1 1 ask 0-3 sent 5-9 took 10-20 gave 1-4294967296 close-yes early
own 0.2 7 408 ask 3-6 gave 0-70
links
client 0.1 took "\x00\r\""
client 0.1 gave "\n\\ ~\x7f"
conn web/s1#1 sent ""
conn web/s1#1 took "\x1f\xab\xff"
totals
web/s1 open 1 park 2 take 3 over 4 care 5 close 18446744073709551615
end
"#;

/// A gate, a round, and a take by a first request.
fn other_marks(alloc: Global) -> Result<Vec<Entry>, Fail>
    ensures { IfOk result (λ v. All IsToldMark v.items) }
{
    let t = ThreadNo(0);
    Ok(vec![in alloc;
        Entry::SetGate {
            t: ThreadNo(15),
            draining: false
        },
        Entry::Round { t, k: 4, old: 2 },
        Entry::Take {
            t,
            n: SessionNo(1),
            first: true,
            place: PlaceNo { row: 15, place: 63 },
            id: ConnId(1),
            uses: 2
        },
    ]?)
}

#[test]
fn the_other_lines(rt: HostRuntime) -> Result<(), Fail> {
    let alloc = rt.alloc();
    let cut = carried(span(5, 9), span(10, 20), true);
    let parts = Parts {
        rules: PoolRules {
            mode: Mode::Safe,
            max: Some(20),
            low: 2,
            delay: Millis(10_000),
        },
        marks: other_marks(alloc)?,
        records: vec![in alloc;
            served(
                1,
                1,
                span(0, 3),
                span(1, 4_294_967_296),
                Kind::Cut(cut, CutCause::Early)
            ),
            served(2, 7, span(3, 6), span(0, 70), Kind::Own(408)),
        ]?,
        client: (bytes(alloc, b"\x00\r\"")?, bytes(alloc, b"\n\\ ~\x7f")?),
        conn: (bytes(alloc, b"")?, bytes(alloc, b"\x1f\xab\xff")?),
        totals: Totals {
            opened: 1,
            parked: 2,
            taken: 3,
            over: 4,
            care: 5,
            closed: u64::MAX,
        },
    };
    let text = print_transcript(alloc, &transcript(alloc, parts)?)?;
    assert_eq!(rt; text.as_slice(), OTHERS);
    Ok(())
}
