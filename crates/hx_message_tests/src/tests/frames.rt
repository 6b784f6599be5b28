//! Kinds of bodies, and bodies in pieces (RFC 9112, sections 6.3, 7.1 and 9.3).

ghost use Rattle.std.specs.Prelude.{◌<◌};

use hx_frame::{
    BodyKind, FrameFault, Meter, MeterState, MethodKind, body_of_answer, body_of_request, one_end,
    persists, wants_close,
};
use hx_head::{HeadRead, read_answer, read_request};
use std::test::Fail;

type Framed = Result<BodyKind, FrameFault>;

fn request_kind(text: &[u8]) -> Option<Framed> {
    match read_request(text) {
        HeadRead::Whole(head) => Some(body_of_request(text, &head)),
        HeadRead::More | HeadRead::Refused(_) => None,
    }
}

fn answer_kind(method: MethodKind, text: &[u8]) -> Option<Framed> {
    match read_answer(text) {
        HeadRead::Whole(head) => Some(body_of_answer(method, text, &head)),
        HeadRead::More | HeadRead::Refused(_) => None,
    }
}

#[test]
fn lengths_of_requests(rt: HostRuntime) {
    let cases: [(&[u8], Framed); 4] = [
        (b"GET / HTTP/1.1\r\nHost: h\r\n\r\n", Ok(BodyKind::Nothing)),
        (
            b"POST / HTTP/1.1\r\nHost: h\r\nContent-Length: 0\r\n\r\n",
            Ok(BodyKind::Length(0)),
        ),
        (
            b"POST / HTTP/1.1\r\nHost: h\r\ncontent-length: 9223372036854775807\r\n\r\n",
            Ok(BodyKind::Length(9_223_372_036_854_775_807)),
        ),
        (
            b"POST / HTTP/1.1\r\nHost: h\r\nContent-Length: 0000000000000000005\r\n\r\n",
            Ok(BodyKind::Length(5)),
        ),
    ];
    for (text, want) in cases {
        assert_eq!(rt; request_kind(text), Some(want));
    }
}

#[test]
fn lengths_of_requests_that_are_refused(rt: HostRuntime) {
    let cases: [(&[u8], Framed); 7] = [
        (
            b"POST / HTTP/1.1\r\nHost: h\r\nContent-Length: 9223372036854775808\r\n\r\n",
            Err(FrameFault::BadLength),
        ),
        (
            b"POST / HTTP/1.1\r\nHost: h\r\nContent-Length: 00000000000000000005\r\n\r\n",
            Err(FrameFault::BadLength),
        ),
        (
            b"POST / HTTP/1.1\r\nHost: h\r\nContent-Length: +5\r\n\r\n",
            Err(FrameFault::BadLength),
        ),
        (
            b"POST / HTTP/1.1\r\nHost: h\r\nContent-Length: \r\n\r\n",
            Err(FrameFault::BadLength),
        ),
        (
            b"POST / HTTP/1.1\r\nHost: h\r\nContent-Length: 5, 5\r\n\r\n",
            Err(FrameFault::SeveralLengths),
        ),
        (
            b"POST / HTTP/1.1\r\nHost: h\r\nContent-Length: 5\r\nContent-Length: 5\r\n\r\n",
            Err(FrameFault::SeveralLengths),
        ),
        (
            b"POST / HTTP/1.1\r\nContent-Length: x\r\n\r\n",
            Err(FrameFault::BadLength),
        ),
    ];
    for (text, want) in cases {
        assert_eq!(rt; request_kind(text), Some(want));
    }
}

#[test]
fn codings_and_hosts_of_requests(rt: HostRuntime) {
    let cases: [(&[u8], Framed); 6] = [
        (
            b"POST / HTTP/1.1\r\nHost: h\r\nTransfer-Encoding: Chunked\r\n\r\n",
            Ok(BodyKind::Chunked),
        ),
        (
            b"POST / HTTP/1.1\r\nHost: h\r\nTransfer-Encoding: chunked\r\nContent-Length: 5\r\n\r\n",
            Err(FrameFault::BothLengths),
        ),
        (
            b"POST / HTTP/1.1\r\nHost: h\r\nTransfer-Encoding: gzip, chunked\r\n\r\n",
            Err(FrameFault::UnknownCoding),
        ),
        (
            b"POST / HTTP/1.1\r\nTransfer-Encoding: chunked\r\nTransfer-Encoding: chunked\r\nContent-Length: 5\r\n\r\n",
            Err(FrameFault::UnknownCoding),
        ),
        (b"GET / HTTP/1.1\r\n\r\n", Err(FrameFault::BadHost)),
        (
            b"GET / HTTP/1.1\r\nHost: h\r\nhost: h\r\n\r\n",
            Err(FrameFault::BadHost),
        ),
    ];
    for (text, want) in cases {
        assert_eq!(rt; request_kind(text), Some(want));
    }
}

#[test]
fn answers_without_a_body(rt: HostRuntime) {
    let cases: [(MethodKind, &[u8], Framed); 4] = [
        (
            MethodKind::Head,
            b"HTTP/1.1 200 OK\r\nContent-Length: 10\r\n\r\n",
            Ok(BodyKind::Nothing),
        ),
        (
            MethodKind::Other,
            b"HTTP/1.1 204 No\r\nContent-Length: 10\r\n\r\n",
            Ok(BodyKind::Nothing),
        ),
        (
            MethodKind::Other,
            b"HTTP/1.1 304 No\r\nTransfer-Encoding: gzip\r\n\r\n",
            Ok(BodyKind::Nothing),
        ),
        (
            MethodKind::Other,
            b"HTTP/1.1 100 Go\r\nContent-Length: 1, 2\r\n\r\n",
            Ok(BodyKind::Nothing),
        ),
    ];
    for (method, text, want) in cases {
        assert_eq!(rt; answer_kind(method, text), Some(want));
    }
}

#[test]
fn answers_with_a_body(rt: HostRuntime) {
    let cases: [(MethodKind, &[u8], Framed); 6] = [
        (
            MethodKind::Other,
            b"HTTP/1.1 200 OK\r\n\r\n",
            Ok(BodyKind::ToEnd),
        ),
        (
            MethodKind::Other,
            b"HTTP/1.1 200 OK\r\nContent-Length: 2\r\n\r\n",
            Ok(BodyKind::Length(2)),
        ),
        (
            MethodKind::Connect,
            b"HTTP/1.1 200 OK\r\nTransfer-Encoding: chunked\r\n\r\n",
            Ok(BodyKind::Chunked),
        ),
        (
            MethodKind::Other,
            b"HTTP/1.0 200 OK\r\nTransfer-Encoding: chunked\r\n\r\n",
            Err(FrameFault::UnknownCoding),
        ),
        (
            MethodKind::Other,
            b"HTTP/1.0 200 OK\r\nContent-Length: 3\r\n\r\n",
            Ok(BodyKind::Length(3)),
        ),
        (
            MethodKind::Other,
            b"HTTP/1.1 200 OK\r\nTransfer-Encoding: chunked\r\nContent-Length: 2\r\n\r\n",
            Err(FrameFault::BothLengths),
        ),
    ];
    for (method, text, want) in cases {
        assert_eq!(rt; answer_kind(method, text), Some(want));
    }
}

fn goes_on(text: &[u8]) -> Option<bool> {
    match read_answer(text) {
        HeadRead::Whole(head) => Some(persists(text, &head)),
        HeadRead::More | HeadRead::Refused(_) => None,
    }
}

#[test]
fn persistence(rt: HostRuntime) -> Result<(), Fail> {
    let cases: [(&[u8], bool); 5] = [
        (b"HTTP/1.1 200 OK\r\n\r\n", true),
        (b"HTTP/1.0 200 OK\r\nConnection: keep-alive\r\n\r\n", false),
        (
            b"HTTP/1.1 200 OK\r\nConnection: X-Q,\t Close \r\n\r\n",
            false,
        ),
        (
            b"HTTP/1.1 200 OK\r\nConnection: a\r\nconnection: close\r\n\r\n",
            false,
        ),
        (
            b"HTTP/1.1 200 OK\r\nConnection: closed\r\nX: close\r\n\r\n",
            true,
        ),
    ];
    for (text, want) in cases {
        assert_eq!(rt; goes_on(text), Some(want));
    }
    let text = b"GET / HTTP/1.1\r\nHost: h\r\nConnection: te, close\r\n\r\n".as_slice();
    if let HeadRead::Whole(head) = read_request(text) {
        assert!(rt; wants_close(text, &head));
        one_end();
        return Ok(());
    }
    Err("no head")?
}

/// How a meter ends that is fed the bytes in pieces of that length: how many bytes were used, and its state.
fn fed(kind: BodyKind, bytes: &[u8], length: usize) -> (usize, MeterState)
    requires { 0 < length }
{
    let mut meter = Meter::new(kind);
    let mut used = 0usize;
    let mut state = MeterState::Going;
    for piece in bytes.chunks(length) {
        let fed = meter.feed(piece);
        used = used.saturating_add(fed.used);
        state = fed.state;
    }
    (used, state)
}

#[test]
fn chunks_in_any_cutting(rt: HostRuntime) {
    let cases: [(&[u8], usize, MeterState); 18] = [
        (b"5\r\nhello\r\n0\r\n\r\nX", 15, MeterState::Done),
        (b"5\r\nhelloX", 8, MeterState::Bad),
        (b"3\r\nabc\r\n0\r\nX: y\r\n\r\n", 19, MeterState::Done),
        (b"aA\r\n", 4, MeterState::Going),
        (
            b"0000000000000001\r\nx\r\n0000000000000000\r\n\r\n",
            41,
            MeterState::Done,
        ),
        (b"00000000000000001\r\n", 16, MeterState::Bad),
        (b"FFFFFFFFFFFFFFFF\r\nabc", 21, MeterState::Going),
        (b"1;a=\"\t\"\xff\r\nx\r\n0 \r\n\r\n", 19, MeterState::Done),
        (b"1\tq\r\nx\r\n0\r\n\r\n", 13, MeterState::Done),
        (b"1;\x00\r\n", 2, MeterState::Bad),
        (b"1\nx", 1, MeterState::Bad),
        (b"1x", 1, MeterState::Bad),
        (b"\r\n", 0, MeterState::Bad),
        (b"1\r\nx\n", 4, MeterState::Bad),
        (b"1\r\r", 2, MeterState::Bad),
        (b"0\r\n\r\n\r\n", 5, MeterState::Done),
        (b"0\r\n:\x01 \r\nz\r\n\r\n", 13, MeterState::Done),
        (b"0\r\na\n", 4, MeterState::Bad),
    ];
    for (bytes, used, state) in cases {
        assert_eq!(rt; fed(BodyKind::Chunked, bytes, 100), (used, state));
        assert_eq!(rt; fed(BodyKind::Chunked, bytes, 1), (used, state));
        for cut in 0..bytes.len() {
            let mut meter = Meter::new(BodyKind::Chunked);
            let first = meter.feed(&bytes[..cut]);
            let last = meter.feed(&bytes[cut..]);
            assert_eq!(rt; first.used.saturating_add(last.used), used);
            assert_eq!(rt; last.state, state);
        }
    }
}

/// How a meter of chunks ends that is fed three pieces, by the last one.
fn fed_three(front: &[u8], middle: &[u8], back: &[u8]) -> (usize, usize, MeterState) {
    let mut meter = Meter::new(BodyKind::Chunked);
    meter.feed(front);
    let second = meter.feed(middle);
    let third = meter.feed(back);
    (second.used, third.used, third.state)
}

#[test]
fn limits_of_lines(rt: HostRuntime) {
    let text = [b'x'; 16_381];
    assert_eq!(rt;
        fed_three(b"5;", &text[..4_092], b"\r\nhello"),
        (4_092, 7, MeterState::Going)
    );
    assert_eq!(rt;
        fed_three(b"5;", &text[..4_093], b"\r\n"),
        (4_092, 0, MeterState::Bad)
    );
    assert_eq!(rt;
        fed_three(b"0\r\n", &text[..16_380], b"\r\n\r\n"),
        (16_380, 4, MeterState::Done)
    );
    assert_eq!(rt;
        fed_three(b"0\r\n", &text, b"\r\n\r\n"),
        (16_380, 0, MeterState::Bad)
    );
    assert_eq!(rt;
        fed_three(b"0\r\na\r\n", &text[..16_377], b"\r\n\r\n"),
        (16_377, 4, MeterState::Done)
    );
    assert_eq!(rt;
        fed_three(b"0\r\na\r\n", &text[..16_378], b"\r\n\r\n"),
        (16_377, 0, MeterState::Bad)
    );
}

#[test]
fn lengths_and_the_end(rt: HostRuntime) {
    let mut meter = Meter::new(BodyKind::Length(3));
    assert_eq!(rt; meter.feed(b"ab").used, 2);
    assert_eq!(rt; meter.state(), MeterState::Going);
    assert_eq!(rt; meter.feed(b"cd").used, 1);
    assert_eq!(rt; meter.feed(b"e").state, MeterState::Done);
    assert_eq!(rt; meter.state(), MeterState::Done);
    assert!(rt; !meter.at_end());
    assert_eq!(rt;
        Meter::new(BodyKind::Nothing).feed(b"a").state,
        MeterState::Done
    );
    assert_eq!(rt; fed(BodyKind::ToEnd, b"abc", 2), (3, MeterState::Going));
    assert!(rt; Meter::new(BodyKind::ToEnd).at_end());
    let body = [b'7'; 5_000];
    for length in [1, 2, 7, 1_000] {
        assert_eq!(rt;
            fed(BodyKind::Length(4_999), &body, length),
            (4_999, MeterState::Done)
        );
    }
}
