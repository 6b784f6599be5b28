//! Scripts and their faults, typed from the format.
use hx_base::{Items, Millis, Order, ServerNo, ThreadNo};
use hx_link::Plan;
use hx_script_parts::*;
use std::alloc::Global;
use std::test::Fail;

// Each kind of line, two frontends and two servers.
const USUAL: &str = "hx-script 1
config 8
global
  nbthread 2
listen web
  bind :8080
  server s1 127.0.0.1:9001
  server s2 127.0.0.1:9002
listen api
  server s1 127.0.0.1:9003
client web 0 0
piece 0 0 \"GET /a b\\r\\n\\\"\\\\\\x00\"
piece 5 0 \"\"
end 5 40
client api 1 20
room 7
server web/s2
piece 30 28 \"hi\"
fail 3
server api/s1 refuse
drain 40 web/s1
ready 10 api/s1
tick 2147483647
";

fn read(alloc: Global, text: &str) -> Result<Script, &'static str> {
    read_script(alloc, text.as_bytes()).map_err(|_| "the script has no fault")
}

// A plan's line, server, refusal, count of pieces, end, room and fail.
type PlanRow = (
    u32,
    Option<u16>,
    bool,
    usize,
    Option<(u64, u64)>,
    Option<u64>,
    Option<u64>,
);

fn row_of(plan: &Plan) -> PlanRow {
    (
        plan.line,
        plan.server.map(|s| s.0),
        plan.refuse,
        plan.pieces.as_slice().len(),
        plan.end.map(|e| (e.0.0, e.1)),
        plan.room,
        plan.fail,
    )
}

#[test]
fn a_usual_script(rt: HostRuntime) -> Result<(), Fail> {
    let script = read(rt.alloc(), USUAL)?;
    assert_eq!(rt; script.config.threads, 2);
    assert_eq!(rt; script.config.fronts.as_slice().len(), 2);
    let rows = [
        (0, 0, 0, (11, None, false, 2, Some((5, 40)), None, None)),
        (1, 1, 20, (15, None, false, 0, None, Some(7), None)),
    ];
    assert_eq!(rt; script.clients.as_slice().len(), 2);
    for (client, (front, worker, moment, plan)) in script.clients.as_slice().iter().zip(&rows) {
        assert_eq!(rt; client.front, *front);
        assert_eq!(rt; client.worker, ThreadNo(*worker));
        assert_eq!(rt; client.moment, Millis(*moment));
        assert_eq!(rt; row_of(&client.plan), *plan);
    }
    let rows = [
        (17, Some(1), false, 1, None, None, Some(3)),
        (20, Some(2), true, 0, None, None, None),
    ];
    assert_eq!(rt; script.plans.as_slice().len(), 2);
    for (plan, row) in script.plans.as_slice().iter().zip(&rows) {
        assert_eq!(rt; row_of(plan), *row);
    }
    Ok(())
}

#[test]
fn its_bytes_orders_and_moments(rt: HostRuntime) -> Result<(), Fail> {
    let script = read(rt.alloc(), USUAL)?;
    let pieces = [(0, 0, b"GET /a b\r\n\"\\\0".as_slice()), (5, 0, b"")];
    for client in script.clients.as_slice().iter().take(1) {
        for (piece, (at, after, bytes)) in client.plan.pieces.as_slice().iter().zip(&pieces) {
            assert_eq!(rt; piece.at, Millis(*at));
            assert_eq!(rt; piece.after, *after);
            assert_eq!(rt; piece.bytes.as_slice(), *bytes);
        }
    }
    let orders = [
        (Millis(40), Order::Drain(ServerNo(0))),
        (Millis(10), Order::Ready(ServerNo(2))),
    ];
    assert_eq!(rt; script.orders.as_slice(), orders.as_slice());
    let moments = [0, 5, 10, 20, 30, 40, 2_147_483_647].map(Millis);
    assert_eq!(rt; script.moments.as_slice(), moments.as_slice());
    Ok(())
}

fn fault_of(alloc: Global, text: &[u8]) -> Option<TextFault> {
    read_script(alloc, text).err()
}

const HEAD: &str = "hx-script 1\nconfig 3\nlisten web\n  bind :8080\n  server s1 127.0.0.1:9001\n";

#[test]
fn the_first_fault_of_the_lines_behind_the_configuration(rt: HostRuntime) -> Result<(), Fail> {
    let rows = [
        ("tick 0\n\n", 7, 2),
        ("config 3\n", 6, 2),
        ("client web\n", 6, 2),
        ("client web 0 0 \n", 6, 2),
        ("server web/s1 refused\n", 6, 2),
        ("server web/s1\npiece 0 0 \"\" x", 7, 2),
        ("tick 01\n", 6, 3),
        ("tick \n", 6, 3),
        ("tick 2147483648\n", 6, 3),
        ("client web 0 0\nend 0 1000000000001", 7, 3),
        ("client web 0 0\nroom 0\n", 7, 3),
        ("client web 0 0\nfail 0\n", 7, 3),
        ("client web 0 0\npiece 0 0 \"\\xA0\"\n", 7, 4),
        ("client web 0 0\npiece 0 0 \"a\"b\n", 7, 4),
        ("client web 0 0\npiece 0 0 \n", 7, 4),
        ("client webb 9 x\n", 6, 5),
        ("client  0 0\n", 6, 5),
        ("drain 0 web/s2\n", 6, 6),
        ("server web-s1 x\n", 6, 6),
        ("client web 1 x\n", 6, 7),
        ("piece 0 0 \"\"\n", 6, 8),
        ("server web/s1 refuse\nroom 1\n", 7, 8),
        ("client web 0 0\nend 5 0\npiece 4 0 \"\"\n", 8, 8),
        ("client web 0 0\nroom 1\nfail 1\nroom 2\n", 9, 8),
        ("client web 0 0\npiece 5 0 \"\"\nend 4 0\n", 8, 9),
    ];
    for (lines, line, rule) in rows {
        let text = format!(in rt.alloc(); "{HEAD}{lines}")?;
        let fault = TextFault::At { line, rule };
        assert_eq!(rt;
            fault_of(rt.alloc(), text.as_bytes()),
            Some(fault),
            "{lines}"
        );
    }
    Ok(())
}

#[test]
fn the_first_fault_of_the_first_lines(rt: HostRuntime) -> Result<(), Fail> {
    let at = |line, rule| TextFault::At { line, rule };
    let config = |line, rule| TextFault::Config { line, rule };
    let rows = [
        ("", at(1, 1)),
        ("hx-script 1\r\nconfig 0\n", at(1, 1)),
        ("hx-script 1\n", at(2, 2)),
        ("hx-script 1\ntick 0\n", at(2, 2)),
        ("hx-script 1\nconfig 1\n", at(2, 2)),
        ("hx-script 1\nconfig 1 \nlisten web", at(2, 2)),
        ("hx-script 1\nconfig 01\n", at(2, 3)),
        ("hx-script 1\nconfig 1\nnosuch\nnosuch\n", config(1, 2)),
        ("hx-script 1\nconfig 2\n\nlisten web\r", config(2, 1)),
        (
            "hx-script 1\nconfig 2\nlisten web\n  bind :8080\nnosuch",
            config(1, 11),
        ),
    ];
    for (text, fault) in rows {
        assert_eq!(rt;
            fault_of(rt.alloc(), text.as_bytes()),
            Some(fault),
            "{text}"
        );
    }
    Ok(())
}

// The usual head with the line so many times behind it.
fn repeated(alloc: Global, line: &str, count: usize) -> Result<Vec<u8>, Fail> {
    let mut text = Vec::from_slice(alloc, HEAD.as_bytes())?;
    for _ in 0..count {
        text.extend_from_slice(line.as_bytes())?;
    }
    Ok(text)
}

#[test]
fn the_limits(rt: HostRuntime) -> Result<(), Fail> {
    let rows = [
        ("client web 0 0\n", 1000, None),
        (
            "client web 0 0\n",
            1001,
            Some(TextFault::At {
                line: 1006,
                rule: 11,
            }),
        ),
        ("server web/s1\n", 4096, None),
        (
            "server web/s1\n",
            4097,
            Some(TextFault::At {
                line: 4102,
                rule: 11,
            }),
        ),
        (
            "x",
            1_048_576 - 72,
            Some(TextFault::At { line: 6, rule: 2 }),
        ),
        (
            "x",
            1_048_576 - 71,
            Some(TextFault::At { line: 1, rule: 10 }),
        ),
    ];
    for (line, count, fault) in rows {
        let text = repeated(rt.alloc(), line, count)?;
        assert_eq!(rt; fault_of(rt.alloc(), &text), fault, "{count} times {line}");
    }
    Ok(())
}
