//! Any framing in any cutting.
ghost use Rattle.std.specs.Prelude.{◌≡◌, IfOk};

use super::{NEVER, run};
use itoa::Buffer;
use std::alloc::Global;
use std::test::Fail;

/// What becomes of the two connections after their exchange.
#[derive(Clone, Copy, PartialEq, Eq)]
enum After {
    /// Both stay.
    BothStay,
    /// The client's stays, and the server's may not be used again.
    ClientStays,
    /// The client is told that its connection closes, and the server's stays.
    ServerStays,
    /// The server ends its answer with its connection.
    NoneStays,
}

/// An exchange, and what goes out for its messages.
#[derive(Clone, Copy)]
struct Exchange<'a> {
    ask: &'a str,
    sent: &'a str,
    answer: &'a str,
    gave: &'a str,
    after: After,
}

/// How the bytes come, and how many a write takes.
#[derive(Clone, Copy)]
struct Cutting {
    /// The first pieces have so many bytes.
    first: usize,
    /// The others have so many.
    others: usize,
    narrow: bool,
}

const WHOLE: Cutting = Cutting {
    first: 0,
    others: 1_000_000,
    narrow: false,
};

fn put_number(out: &mut String, n: usize) -> Result<(), Fail> {
    let mut buffer = Buffer::new();
    out.push_str(buffer.format(n))?;
    Ok(())
}

/// A byte text.
fn put_bytes(out: &mut String, bytes: &[u8]) -> Result<(), Fail> {
    out.push('"')?;
    for byte in bytes {
        match *byte {
            b'\r' => out.push_str("\\r")?,
            b'\n' => out.push_str("\\n")?,
            b'"' => out.push_str("\\\"")?,
            b'\\' => out.push_str("\\\\")?,
            b'\t' => out.push_str("\\x09")?,
            byte => out.push(char::from(byte))?,
        }
    }
    out.push('"')?;
    Ok(())
}

fn put_piece(out: &mut String, after: usize, bytes: &[u8]) -> Result<(), Fail> {
    out.push_str("piece 0 ")?;
    put_number(out, after)?;
    out.push(' ')?;
    put_bytes(out, bytes)?;
    out.push('\n')?;
    Ok(())
}

/// The pieces of a link, and its room.
fn put_link(out: &mut String, after: usize, text: &str, cutting: Cutting) -> Result<(), Fail> {
    let bytes = text.as_bytes();
    let (first, others) = bytes.split_at(cutting.first.min(bytes.len()));
    if cutting.narrow {
        out.push_str("room 1\n")?;
    }
    put_piece(out, after, first)?;
    for piece in others.chunks(cutting.others.max(1)) {
        put_piece(out, after, piece)?;
    }
    Ok(())
}

fn put_end(out: &mut String, after: usize) -> Result<(), Fail> {
    out.push_str("end 0 ")?;
    put_number(out, after)?;
    out.push('\n')?;
    Ok(())
}

fn script_of(alloc: Global, exchange: Exchange<'_>, cutting: Cutting) -> Result<String, Fail> {
    let mut out = String::new(alloc);
    out.push_str("hx-script 1\nconfig 4\nlisten web\n  bind :8080\n  http-reuse always\n")?;
    out.push_str("  server s1 127.0.0.1:9001\nclient web 0 0\n")?;
    put_link(&mut out, 0, exchange.ask, cutting)?;
    put_end(&mut out, exchange.gave.len())?;
    out.push_str("server web/s1\n")?;
    put_link(&mut out, exchange.sent.len(), exchange.answer, cutting)?;
    if exchange.after == After::NoneStays {
        put_end(&mut out, exchange.sent.len())?;
    }
    Ok(out)
}

/// The marks, and the numbers behind `open 1`.
fn marks_of(after: After) -> (&'static str, &'static str) {
    match after {
        After::BothStay | After::ServerStays => (
            "open 0.1 1\npark 0.1 1 0:0 1\ngate 0 drain\ntake 0.0 1 0:0 1 later\nclose 0.0 1\n",
            " park 1 take 0 over 0 care 1 close 1\n",
        ),
        After::ClientStays | After::NoneStays => (
            "open 0.1 1\nclose 0.1 1\ngate 0 drain\n",
            " park 0 take 0 over 0 care 0 close 1\n",
        ),
    }
}

/// The last words of the two records.
fn ends_of(after: After) -> (&'static str, &'static str) {
    match after {
        After::BothStay | After::ClientStays => ("keep", "end"),
        After::ServerStays | After::NoneStays => ("close", "closing"),
    }
}

fn put_records(out: &mut String, exchange: Exchange<'_>) -> Result<(), Fail> {
    let (closing, cause) = ends_of(exchange.after);
    out.push_str("records\npass 0.1 1 web/s1#1 1")?;
    for (word, text) in [
        (" ask 0-", exchange.ask),
        (" sent 0-", exchange.sent),
        (" took 0-", exchange.answer),
        (" gave 0-", exchange.gave),
    ] {
        out.push_str(word)?;
        put_number(out, text.len())?;
    }
    out.push(' ')?;
    out.push_str(closing)?;
    out.push_str("\nleft 0.1 ")?;
    put_number(out, exchange.ask.len())?;
    out.push('-')?;
    put_number(out, exchange.ask.len())?;
    out.push(' ')?;
    out.push_str(cause)?;
    out.push('\n')?;
    Ok(())
}

fn transcript_of(alloc: Global, exchange: Exchange<'_>) -> Result<String, Fail> {
    let (marks, totals) = marks_of(exchange.after);
    let mut out = String::new(alloc);
    out.push_str("hx-transcript 1\nserver web/s1 always -1 0 5000\n")?;
    out.push_str(marks)?;
    put_records(&mut out, exchange)?;
    for (words, text) in [
        ("links\nclient 0.1 took ", exchange.ask),
        ("\nclient 0.1 gave ", exchange.gave),
        ("\nconn web/s1#1 sent ", exchange.sent),
        ("\nconn web/s1#1 took ", exchange.answer),
    ] {
        out.push_str(words)?;
        put_bytes(&mut out, text.as_bytes())?;
    }
    out.push_str("\ntotals\nweb/s1 open 1")?;
    out.push_str(totals)?;
    out.push_str("end\n")?;
    Ok(out)
}

/// Whether the replay of the exchange in this cutting prints its transcript.
fn passes(rt: &HostRuntime, exchange: Exchange<'_>, cutting: Cutting) -> Result<bool, Fail> {
    let script = script_of(rt.alloc(), exchange, cutting)?;
    let expected = transcript_of(rt.alloc(), exchange)?;
    let ran = run(rt, "replay", script.as_str(), NEVER)?;
    Ok(ran.status == 0 && ran.text.as_slice() == expected.as_bytes())
}

const GET: &str = "GET /a HTTP/1.1\r\nHost: h\r\n\r\n";

const OK: &str = "HTTP/1.1 200 OK\r\nContent-Length: 2\r\n\r\nhi";

const PLAIN: Exchange<'static> = Exchange {
    ask: GET,
    sent: GET,
    answer: OK,
    gave: OK,
    after: After::BothStay,
};

/// One that goes out as it came.
const fn answered(answer: &'static str) -> Exchange<'static> {
    Exchange {
        answer,
        gave: answer,
        ..PLAIN
    }
}

/// Requests with bodies.
const ASKS: [&str; 4] = [
    "PUT /a HTTP/1.1\r\nHost: h\r\nContent-Length: 5\r\n\r\nhello",
    "POST /a HTTP/1.1\r\nHost: h\r\nContent-Length: 0\r\n\r\n",
    "POST /a HTTP/1.1\r\nHost: h\r\nTransfer-Encoding: chunked\r\n\r\n3;x=\"y\"\r\nabc\r\n0;z\r\nT: v\r\nU: w\r\n\r\n",
    "PURGE * HTTP/1.1\r\nhOsT: h\r\nTransfer-Encoding: Chunked\r\n\r\n00A \tq\r\n0123456789\r\n000\r\n\r\n",
];

/// Answers to GET that go out as they came.
const ANSWERS: [&str; 8] = [
    OK,
    "HTTP/1.1 200 OK\r\nContent-Length: 0\r\n\r\n",
    "HTTP/1.1 200 OK\r\nTransfer-Encoding: chunked\r\n\r\n3\r\nabc\r\n0\r\nX: y\r\n\r\n",
    "HTTP/1.1 200 OK\r\nTransfer-Encoding: chunked\r\n\r\n4;n=1\r\nwiki\r\n0;last\r\nSum: 7\r\nEnd: 8\r\n\r\n",
    "HTTP/1.1 204 No Content\r\nContent-Length: 3\r\n\r\n",
    "HTTP/1.1 304 Not Modified\r\nContent-Length: 10\r\nETag: \"e\\f\"\r\n\r\n",
    "HTTP/1.1 404 Not Found\r\nX-Long: a b c\r\nContent-Length: 1\r\n\r\n.",
    "HTTP/1.1 100 Continue\r\n\r\nHTTP/1.1 103 Early Hints\r\nLink: l\r\n\r\nHTTP/1.1 200 OK\r\nContent-Length: 2\r\n\r\nhi",
];

/// Exchanges whose heads go out otherwise than they came, and an answer to HEAD.
const OTHERS: [Exchange<'static>; 6] = [
    Exchange {
        ask: "HEAD /a HTTP/1.1\r\nHost: h\r\n\r\n",
        sent: "HEAD /a HTTP/1.1\r\nHost: h\r\n\r\n",
        answer: "HTTP/1.1 200 OK\r\nContent-Length: 10\r\n\r\n",
        gave: "HTTP/1.1 200 OK\r\nContent-Length: 10\r\n\r\n",
        after: After::BothStay,
    },
    Exchange {
        ask: "GET /a HTTP/1.1\r\nHost: h\r\nConnection: close, X-Q\r\nX-Q: 1\r\n\r\n",
        gave: "HTTP/1.1 200 OK\r\nContent-Length: 2\r\nConnection: close\r\n\r\nhi",
        after: After::ServerStays,
        ..PLAIN
    },
    Exchange {
        answer: "HTTP/1.1 200 OK\r\nconnection: Close\r\nContent-Length: 2\r\nKeep-Alive: 9\r\n\r\nhi",
        after: After::ClientStays,
        ..PLAIN
    },
    Exchange {
        answer: "HTTP/1.0 200 OK\r\nContent-Length:   2  \r\n\r\nhi",
        after: After::ClientStays,
        ..PLAIN
    },
    Exchange {
        answer: "HTTP/1.1 200 OK\r\n\r\nto the end",
        gave: "HTTP/1.1 200 OK\r\nConnection: close\r\n\r\nto the end",
        after: After::NoneStays,
        ..PLAIN
    },
    Exchange {
        answer: "HTTP/1.1 102 Processing\r\n\r\nHTTP/1.0 200 OK\r\n\r\n",
        gave: "HTTP/1.1 102 Processing\r\n\r\nHTTP/1.1 200 OK\r\nConnection: close\r\n\r\n",
        after: After::NoneStays,
        ..PLAIN
    },
];

/// Whether it passes whole, cut in two at every byte, and in pieces of one byte and of seven, with and without room.
fn passes_in_every_cutting(rt: &HostRuntime, exchange: Exchange<'_>) -> Result<bool, Fail> {
    let most = exchange.ask.len().max(exchange.answer.len());
    for narrow in [false, true] {
        for first in 0..most {
            let cutting = Cutting {
                first,
                narrow,
                ..WHOLE
            };
            if !passes(rt, exchange, cutting)? {
                return Ok(false);
            }
        }
        for others in [1, 7] {
            let cutting = Cutting {
                first: 0,
                others,
                narrow,
            };
            if !passes(rt, exchange, cutting)? {
                return Ok(false);
            }
        }
    }
    Ok(true)
}

#[test]
fn any_request_passes_in_any_cutting(rt: HostRuntime) -> Result<(), Fail> {
    for ask in ASKS {
        let exchange = Exchange {
            ask,
            sent: ask,
            ..PLAIN
        };
        assert_eq!(rt; (ask, passes_in_every_cutting(&rt, exchange)?), (ask, true));
    }
    Ok(())
}

#[test]
fn any_answer_passes_in_any_cutting(rt: HostRuntime) -> Result<(), Fail> {
    for answer in ANSWERS {
        let exchange = answered(answer);
        assert_eq!(rt;
            (answer, passes_in_every_cutting(&rt, exchange)?),
            (answer, true)
        );
    }
    for exchange in OTHERS {
        let answer = exchange.answer;
        assert_eq!(rt;
            (answer, passes_in_every_cutting(&rt, exchange)?),
            (answer, true)
        );
    }
    Ok(())
}

/// A message with this head and so many bytes behind it.
fn with_body(alloc: Global, head: &str, len: usize) -> Result<String, Fail> {
    let mut text = String::new(alloc);
    text.push_str(head)?;
    for _ in 0..len {
        text.push('x')?;
    }
    Ok(text)
}

#[test]
fn long_bodies_pass(rt: HostRuntime) -> Result<(), Fail> {
    let alloc = rt.alloc();
    let ask = with_body(
        alloc,
        "POST /a HTTP/1.1\r\nHost: h\r\nContent-Length: 300000\r\n\r\n",
        300_000,
    )?;
    let answer = with_body(
        alloc,
        "HTTP/1.1 200 OK\r\nContent-Length: 400000\r\n\r\n",
        400_000,
    )?;
    let exchange = Exchange {
        ask: ask.as_str(),
        sent: ask.as_str(),
        answer: answer.as_str(),
        gave: answer.as_str(),
        after: After::BothStay,
    };
    let pieces = Cutting {
        first: 1,
        others: 20_000,
        narrow: false,
    };
    assert!(rt; passes(&rt, exchange, WHOLE)?);
    assert!(rt; passes(&rt, exchange, pieces)?);
    Ok(())
}

/// A head of so many bytes and fields: this front, a word that fills it up, this line's rest, and the fields.
fn head_of(
    alloc: Global,
    front: &str,
    line: &str,
    len: usize,
    fields: usize,
) -> Result<String, Fail> {
    let mut behind = String::new(alloc);
    behind.push_str(line)?;
    for _ in 1..fields {
        behind.push_str("A: b\r\n")?;
    }
    behind.push_str("\r\n")?;
    let mut head = with_body(
        alloc,
        front,
        len.saturating_sub(front.len()).saturating_sub(behind.len()),
    )?;
    head.push_str(behind.as_str())?;
    Ok(head)
}

#[test]
fn heads_up_to_their_limits_and_past_them_are_replayed(rt: HostRuntime) -> Result<(), Fail> {
    for (len, fields, status) in [
        (16_384, 1, 0),
        (16_385, 1, 0),
        (2_000, 100, 0),
        (2_000, 101, 0),
    ] {
        let ask = head_of(rt.alloc(), "GET /", " HTTP/1.1\r\nHost: h\r\n", len, fields)?;
        let answer = head_of(
            rt.alloc(),
            "HTTP/1.1 200 ",
            "\r\nContent-Length: 0\r\n",
            len,
            fields,
        )?;
        assert_eq!(rt; (ask.len(), answer.len()), (len, len));
        let asked = Exchange {
            ask: ask.as_str(),
            sent: ask.as_str(),
            ..PLAIN
        };
        let answered = Exchange {
            answer: answer.as_str(),
            gave: answer.as_str(),
            ..PLAIN
        };
        for exchange in [asked, answered] {
            let script = script_of(rt.alloc(), exchange, WHOLE)?;
            let ran = run(&rt, "replay", script.as_str(), NEVER)?;
            assert_eq!(rt; (len, fields, ran.status), (len, fields, status));
        }
    }
    Ok(())
}

/// Scripts that are no exchange of a whole request and a whole answer within the limits.
const NOT_WHOLE: [Exchange<'static>; 9] = [
    // The answer is a byte short, has one too many, or changes the protocol.
    Exchange {
        answer: "HTTP/1.1 200 OK\r\nContent-Length: 3\r\n\r\nhi",
        ..PLAIN
    },
    Exchange {
        answer: "HTTP/1.1 200 OK\r\nContent-Length: 2\r\n\r\nhi!",
        ..PLAIN
    },
    Exchange {
        answer: "HTTP/1.1 101 Switching Protocols\r\n\r\n",
        ..PLAIN
    },
    // The chunks are bad, or the answer has both lengths.
    Exchange {
        answer: "HTTP/1.1 200 OK\r\nTransfer-Encoding: chunked\r\n\r\n3\r\nabcd\r\n0\r\n\r\n",
        ..PLAIN
    },
    Exchange {
        answer: "HTTP/1.1 200 OK\r\nTransfer-Encoding: chunked\r\nContent-Length: 1\r\n\r\n0\r\n\r\n",
        ..PLAIN
    },
    // The server ends behind a length.
    Exchange {
        after: After::NoneStays,
        ..PLAIN
    },
    // The request has no host, is of the old version, or isn't whole.
    Exchange {
        ask: "GET /a HTTP/1.1\r\n\r\n",
        ..PLAIN
    },
    Exchange {
        ask: "GET /a HTTP/1.0\r\nHost: h\r\n\r\n",
        ..PLAIN
    },
    Exchange {
        ask: "GET /a HTTP/1.1\r\nHost: h\r\n",
        ..PLAIN
    },
];

#[test]
fn what_does_not_pass_whole_is_replayed(rt: HostRuntime) -> Result<(), Fail> {
    for exchange in NOT_WHOLE {
        let script = script_of(rt.alloc(), exchange, WHOLE)?;
        let ran = run(&rt, "replay", script.as_str(), NEVER)?;
        assert_eq!(rt;
            (exchange.ask, exchange.answer, ran.status),
            (exchange.ask, exchange.answer, 0)
        );
    }
    Ok(())
}
