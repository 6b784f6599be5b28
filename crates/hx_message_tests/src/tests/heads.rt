use hx_head::*;
use std::alloc::{AllocError, Global};
use std::test::Fail;

fn told<H: Copy>(read: HeadRead<H>) -> &'static str {
    match read {
        HeadRead::Whole(_) => "whole",
        HeadRead::More => "more",
        HeadRead::Refused(1) => "not a head",
        HeadRead::Refused(2) => "too long",
        HeadRead::Refused(3) => "too many fields",
        HeadRead::Refused(4) => "version",
        HeadRead::Refused(5) => "status",
        HeadRead::Refused(_) => "unknown",
    }
}

/// A text with its middle repeated.
fn repeated(
    alloc: Global,
    front: &[u8],
    middle: &[u8],
    count: u32,
    back: &[u8],
) -> Result<Vec<u8>, AllocError> {
    let mut text = Vec::new(alloc);
    text.extend_from_slice(front)?;
    for _ in 0..count {
        text.extend_from_slice(middle)?;
    }
    text.extend_from_slice(back)?;
    Ok(text)
}

fn goes_out_as(ask: &[u8], sent: &[u8]) -> bool {
    let HeadRead::Whole(head) = read_request(ask) else {
        return false;
    };
    let mut out = [0; 200];
    match forward_request(ask, &head, &mut out) {
        Ok(count) => count <= 200 && &out[..count] == sent,
        Err(_) => false,
    }
}

fn comes_back_as(answer: &[u8], closing: bool, gave: &[u8]) -> bool {
    let HeadRead::Whole(head) = read_answer(answer) else {
        return false;
    };
    let mut out = [0; 200];
    match forward_answer(answer, &head, closing, &mut out) {
        Ok(count) => count <= 200 && &out[..count] == gave,
        Err(_) => false,
    }
}

#[test]
fn hostile_requests_are_refused(rt: HostRuntime) {
    let heads: [(&[u8], &str); 18] = [
        (b"GET /a HTTP/1.1\r\nHost: h\r\n\r\n", "whole"),
        (b"\r\nGET /a HTTP/1.1\nHost: h\n\n", "whole"),
        (b"GET /a HTTP/1.1\r\nHost: h\r\n", "more"),
        (b"", "more"),
        (b"GET / HTTP/1.0\r\n\r\n", "version"),
        (b"GET / HTTP/2.0\r\n\r\n", "not a head"),
        (b"GET / HTTP/1.1\r\nA: b\r\n c\r\n\r\n", "not a head"),
        (b"GET / HTTP/1.1\r\nA: b\rc\r\n\r\n", "not a head"),
        (b"GET / HTTP/1.1\rA: b\r\n\r\n", "not a head"),
        (b"GET / HTTP/1.1\r\nA: b\0c\r\n\r\n", "not a head"),
        (b"GET / HTTP/1.1\r\nA\0: b\r\n\r\n", "not a head"),
        (b"GET / HTTP/1.1\r\nA : b\r\n\r\n", "not a head"),
        (b"GET / HTTP/1.1\r\n A: b\r\n\r\n", "not a head"),
        (b"GET / HTTP/1.1\r\n: b\r\n\r\n", "not a head"),
        (b"GET / HTTP/1.1\r\nA\r\n\r\n", "not a head"),
        (b"GET  HTTP/1.1\r\n\r\n", "not a head"),
        (b"GET /\x01 HTTP/1.1\r\n\r\n", "not a head"),
        (b"GET /a\r\n\r\n", "not a head"),
    ];
    for (head, answer) in &heads {
        assert_eq!(rt; told(read_request(head)), *answer, "{head:?}");
    }
}

#[test]
fn hostile_answers_are_refused(rt: HostRuntime) {
    let heads: [(&[u8], &str); 9] = [
        (b"HTTP/1.1 200 OK\r\nContent-Length: 2\r\n\r\nhi", "whole"),
        (b"HTTP/1.0 200\r\n\r\n", "whole"),
        (b"HTTP/1.1 200 OK\r\nA: b", "more"),
        (b"HTTP/1.1 099 X\r\n\r\n", "status"),
        (b"HTTP/1.1 20 OK\r\n\r\n", "not a head"),
        (b"HTTP/1.1 2000 OK\r\n\r\n", "not a head"),
        (b"HTTP/1.2 200 OK\r\n\r\n", "not a head"),
        (b"HTTP/1.1 200 OK\r\nA: b\r\n c\r\n\r\n", "not a head"),
        (b"HTTP/1.1 200 OK\r\nA : b\r\n\r\n", "not a head"),
    ];
    for (head, answer) in &heads {
        assert_eq!(rt; told(read_answer(head)), *answer, "{head:?}");
    }
}

#[test]
fn the_limits_are_met_to_the_byte(rt: HostRuntime) -> Result<(), Fail> {
    let alloc = rt.alloc();
    let (front, back) = (b"GET /", b" HTTP/1.1\r\nHost: h\r\n\r\n");
    let longest = repeated(alloc, front, b"a", 16_357, back)?;
    assert_eq!(rt; longest.len(), 16_384);
    assert_eq!(rt; told(read_request(longest.as_slice())), "whole");
    let longer = repeated(alloc, front, b"a", 16_358, back)?;
    assert_eq!(rt; told(read_request(longer.as_slice())), "too long");
    let no_head = repeated(alloc, b"\x01", b"a", 16_384, b"")?;
    assert_eq!(rt; told(read_request(no_head.as_slice())), "not a head");
    assert_eq!(rt; told(read_answer(no_head.as_slice())), "not a head");
    let front = b"GET / HTTP/1.1\r\n";
    let most = repeated(alloc, front, b"A: b\r\n", 100, b"\r\n")?;
    assert_eq!(rt; told(read_request(most.as_slice())), "whole");
    let many = repeated(alloc, front, b"A: b\r\n", 101, b"\r\n")?;
    assert_eq!(rt; told(read_request(many.as_slice())), "too many fields");
    let front = b"HTTP/1.1 200 OK\r\n";
    let many = repeated(alloc, front, b"A: b\r\n", 101, b"\r\n")?;
    assert_eq!(rt; told(read_answer(many.as_slice())), "too many fields");
    let longer = repeated(alloc, front, b"A: b\r\n", 60_000, b"")?;
    assert_eq!(rt; told(read_answer(longer.as_slice())), "too many fields");
    Ok(())
}

#[test]
fn requests_go_out_without_the_fields_of_the_connection(rt: HostRuntime) {
    let plain = b"GET /a HTTP/1.1\r\nHost: h\r\n\r\n";
    let heads: [&[u8]; 6] = [
        b"GET /a HTTP/1.1\r\nHost: h\r\n\r\n",
        b"GET /a HTTP/1.1\r\nHost: h\r\nConnection: close, X-Q\r\nX-Q: 1\r\n\r\n",
        b"GET /a HTTP/1.1\r\nx-q: 1\r\nHost:h\r\nCONNECTION: a,\t X-Q\t,b\r\n\r\n",
        b"GET /a HTTP/1.1\r\nHost: h\r\nConnection: host\r\n\r\n",
        b"GET /a HTTP/1.1\nkeep-alive: 5\nTE: trailers\nHost: h\nUpgrade: x\nProxy-Connection: y\n\n",
        b"\r\nGET /a HTTP/1.1\r\nA: 1\r\nHost: h\r\nB: 2\r\nConnection: b\r\nConnection:,a\r\n\r\n",
    ];
    for head in &heads {
        assert!(rt; goes_out_as(head, plain), "{head:?}");
    }
    let kept = b"GET /a HTTP/1.1\r\nConnectio: c\r\nX-Q1: q\r\n\r\n";
    assert!(rt;
        goes_out_as(
            b"GET /a HTTP/1.1\r\nConnectio:  c \r\nX-Q1: q\r\nConnection: X-Q, X-Q1 1\r\n\r\n",
            kept
        )
    );
}

#[test]
fn answers_come_back_with_the_proxys_own_close(rt: HostRuntime) {
    let answer = b"HTTP/1.0 200 OK\r\nConnection: keep-alive\r\nContent-Length: 2\r\n\r\nhi";
    let open = b"HTTP/1.1 200 OK\r\nContent-Length: 2\r\n\r\n";
    assert!(rt; comes_back_as(answer, false, open));
    let closing = b"HTTP/1.1 200 OK\r\nContent-Length: 2\r\nConnection: close\r\n\r\n";
    assert!(rt; comes_back_as(answer, true, closing));
    assert!(rt; comes_back_as(b"HTTP/1.1 204\n\n", false, b"HTTP/1.1 204 \r\n\r\n"));
}

#[test]
fn a_byte_too_few_is_no_room(rt: HostRuntime) {
    let ask = b"GET /a HTTP/1.1\r\nHost: h\r\n\r\n";
    if let HeadRead::Whole(head) = read_request(ask) {
        let mut out = [b'.'; 27];
        assert_eq!(rt;
            forward_request(ask, &head, &mut out),
            Err(NoRoom { needed: 28 })
        );
        assert_eq!(rt; out, [b'.'; 27]);
    } else {
        assert!(rt; false);
    }
}
