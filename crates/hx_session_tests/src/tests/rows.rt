//! Whole transcripts of exchanges that pass: one request, two, a closing one, and the turns of two servers.

use crate::tests::play::{joined, play_lines};
use std::test::Fail;

const ONE: [&str; 11] = [
    "hx-script 1",
    "config 4",
    "listen web",
    "  bind :8080",
    "  http-reuse always",
    "  server s1 127.0.0.1:9001",
    "client web 0 0",
    "piece 0 0 \"GET /a HTTP/1.1\\r\\nHost: h\\r\\n\\r\\n\"",
    "end 0 40",
    "server web/s1",
    "piece 0 28 \"HTTP/1.1 200 OK\\r\\nContent-Length: 2\\r\\n\\r\\nhi\"",
];

const ONE_TOLD: [&str; 18] = [
    "hx-transcript 1",
    "server web/s1 always -1 0 5000",
    "open 0.1 1",
    "park 0.1 1 0:0 1",
    "gate 0 drain",
    "take 0.0 1 0:0 1 later",
    "close 0.0 1",
    "records",
    "pass 0.1 1 web/s1#1 1 ask 0-28 sent 0-28 took 0-40 gave 0-40 keep",
    "left 0.1 28-28 end",
    "links",
    "client 0.1 took \"GET /a HTTP/1.1\\r\\nHost: h\\r\\n\\r\\n\"",
    "client 0.1 gave \"HTTP/1.1 200 OK\\r\\nContent-Length: 2\\r\\n\\r\\nhi\"",
    "conn web/s1#1 sent \"GET /a HTTP/1.1\\r\\nHost: h\\r\\n\\r\\n\"",
    "conn web/s1#1 took \"HTTP/1.1 200 OK\\r\\nContent-Length: 2\\r\\n\\r\\nhi\"",
    "totals",
    "web/s1 open 1 park 1 take 0 over 0 care 1 close 1",
    "end",
];

const TWO: [&str; 12] = [
    "hx-script 1",
    "config 4",
    "listen web",
    "  bind :8080",
    "  http-reuse always",
    "  server s1 127.0.0.1:9001",
    "client web 0 0",
    "piece 0 0 \"GET /a HTTP/1.1\\r\\nHost: h\\r\\n\\r\\nGET /a HTTP/1.1\\r\\nHost: h\\r\\n\\r\\n\"",
    "end 0 80",
    "server web/s1",
    "piece 0 28 \"HTTP/1.1 200 OK\\r\\nContent-Length: 2\\r\\n\\r\\nhi\"",
    "piece 0 56 \"HTTP/1.1 200 OK\\r\\nContent-Length: 2\\r\\n\\r\\nhi\"",
];

const TWO_TOLD: [&str; 21] = [
    "hx-transcript 1",
    "server web/s1 always -1 0 5000",
    "open 0.1 1",
    "park 0.1 1 0:0 1",
    "take 0.1 1 0:0 1 later",
    "park 0.1 1 0:0 2",
    "gate 0 drain",
    "take 0.0 1 0:0 2 later",
    "close 0.0 1",
    "records",
    "pass 0.1 1 web/s1#1 1 ask 0-28 sent 0-28 took 0-40 gave 0-40 keep",
    "pass 0.1 2 web/s1#1 2 ask 28-56 sent 28-56 took 40-80 gave 40-80 keep",
    "left 0.1 56-56 end",
    "links",
    "client 0.1 took \"GET /a HTTP/1.1\\r\\nHost: h\\r\\n\\r\\nGET /a HTTP/1.1\\r\\nHost: h\\r\\n\\r\\n\"",
    "client 0.1 gave \"HTTP/1.1 200 OK\\r\\nContent-Length: 2\\r\\n\\r\\nhiHTTP/1.1 200 OK\\r\\nContent-Length: 2\\r\\n\\r\\nhi\"",
    "conn web/s1#1 sent \"GET /a HTTP/1.1\\r\\nHost: h\\r\\n\\r\\nGET /a HTTP/1.1\\r\\nHost: h\\r\\n\\r\\n\"",
    "conn web/s1#1 took \"HTTP/1.1 200 OK\\r\\nContent-Length: 2\\r\\n\\r\\nhiHTTP/1.1 200 OK\\r\\nContent-Length: 2\\r\\n\\r\\nhi\"",
    "totals",
    "web/s1 open 1 park 2 take 1 over 0 care 1 close 1",
    "end",
];

const WANTS_CLOSE: [&str; 10] = [
    "hx-script 1",
    "config 4",
    "listen web",
    "  bind :8080",
    "  http-reuse always",
    "  server s1 127.0.0.1:9001",
    "client web 0 0",
    "piece 0 0 \"GET /a HTTP/1.1\\r\\nHost: h\\r\\nConnection: close, X-Q\\r\\nX-Q: 1\\r\\n\\r\\n\"",
    "server web/s1",
    "piece 0 28 \"HTTP/1.1 200 OK\\r\\nContent-Length: 2\\r\\n\\r\\nhi\"",
];

const WANTS_CLOSE_TOLD: [&str; 18] = [
    "hx-transcript 1",
    "server web/s1 always -1 0 5000",
    "open 0.1 1",
    "park 0.1 1 0:0 1",
    "gate 0 drain",
    "take 0.0 1 0:0 1 later",
    "close 0.0 1",
    "records",
    "pass 0.1 1 web/s1#1 1 ask 0-60 sent 0-28 took 0-40 gave 0-59 close",
    "left 0.1 60-60 closing",
    "links",
    "client 0.1 took \"GET /a HTTP/1.1\\r\\nHost: h\\r\\nConnection: close, X-Q\\r\\nX-Q: 1\\r\\n\\r\\n\"",
    "client 0.1 gave \"HTTP/1.1 200 OK\\r\\nContent-Length: 2\\r\\nConnection: close\\r\\n\\r\\nhi\"",
    "conn web/s1#1 sent \"GET /a HTTP/1.1\\r\\nHost: h\\r\\n\\r\\n\"",
    "conn web/s1#1 took \"HTTP/1.1 200 OK\\r\\nContent-Length: 2\\r\\n\\r\\nhi\"",
    "totals",
    "web/s1 open 1 park 1 take 0 over 0 care 1 close 1",
    "end",
];

const TURNS: [&str; 14] = [
    "hx-script 1",
    "config 5",
    "listen web",
    "  bind :8080",
    "  http-reuse always",
    "  server s1 127.0.0.1:9001",
    "  server s2 127.0.0.1:9002",
    "client web 0 0",
    "piece 0 0 \"GET /a HTTP/1.1\\r\\nHost: h\\r\\n\\r\\nGET /a HTTP/1.1\\r\\nHost: h\\r\\n\\r\\n\"",
    "end 0 80",
    "server web/s1",
    "piece 0 28 \"HTTP/1.1 200 OK\\r\\nContent-Length: 2\\r\\n\\r\\nhi\"",
    "server web/s2",
    "piece 0 28 \"HTTP/1.1 200 OK\\r\\nContent-Length: 2\\r\\n\\r\\nhi\"",
];

const TURNS_TOLD: [&str; 28] = [
    "hx-transcript 1",
    "server web/s1 always -1 0 5000",
    "open 0.1 1",
    "park 0.1 1 0:0 1",
    "gate 0 drain",
    "take 0.0 1 0:0 1 later",
    "close 0.0 1",
    "server web/s2 always -1 0 5000",
    "open 0.1 1",
    "park 0.1 1 0:0 1",
    "gate 0 drain",
    "take 0.0 1 0:0 1 later",
    "close 0.0 1",
    "records",
    "pass 0.1 1 web/s1#1 1 ask 0-28 sent 0-28 took 0-40 gave 0-40 keep",
    "pass 0.1 2 web/s2#1 1 ask 28-56 sent 0-28 took 0-40 gave 40-80 keep",
    "left 0.1 56-56 end",
    "links",
    "client 0.1 took \"GET /a HTTP/1.1\\r\\nHost: h\\r\\n\\r\\nGET /a HTTP/1.1\\r\\nHost: h\\r\\n\\r\\n\"",
    "client 0.1 gave \"HTTP/1.1 200 OK\\r\\nContent-Length: 2\\r\\n\\r\\nhiHTTP/1.1 200 OK\\r\\nContent-Length: 2\\r\\n\\r\\nhi\"",
    "conn web/s1#1 sent \"GET /a HTTP/1.1\\r\\nHost: h\\r\\n\\r\\n\"",
    "conn web/s1#1 took \"HTTP/1.1 200 OK\\r\\nContent-Length: 2\\r\\n\\r\\nhi\"",
    "conn web/s2#1 sent \"GET /a HTTP/1.1\\r\\nHost: h\\r\\n\\r\\n\"",
    "conn web/s2#1 took \"HTTP/1.1 200 OK\\r\\nContent-Length: 2\\r\\n\\r\\nhi\"",
    "totals",
    "web/s1 open 1 park 1 take 0 over 0 care 1 close 1",
    "web/s2 open 1 park 1 take 0 over 0 care 1 close 1",
    "end",
];

#[test]
fn one_request_and_two(rt: HostRuntime) -> Result<(), Fail> {
    let alloc = rt.alloc();
    assert_eq!(rt; play_lines(alloc, &ONE)?, joined(alloc, &ONE_TOLD)?);
    assert_eq!(rt; play_lines(alloc, &TWO)?, joined(alloc, &TWO_TOLD)?);
    Ok(())
}

#[test]
fn a_request_that_wants_close(rt: HostRuntime) -> Result<(), Fail> {
    let alloc = rt.alloc();
    assert_eq!(rt;
        play_lines(alloc, &WANTS_CLOSE)?,
        joined(alloc, &WANTS_CLOSE_TOLD)?
    );
    Ok(())
}

#[test]
fn two_servers_take_turns(rt: HostRuntime) -> Result<(), Fail> {
    let alloc = rt.alloc();
    assert_eq!(rt; play_lines(alloc, &TURNS)?, joined(alloc, &TURNS_TOLD)?);
    Ok(())
}
