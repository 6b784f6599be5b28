//! Whole transcripts of bytes that are no message, and of links that fail.

use crate::tests::play::{joined, play_lines};
use std::test::Fail;

const BAD_CHUNK: [&str; 11] = [
    "hx-script 1",
    "config 4",
    "listen web",
    "  bind :8080",
    "  http-reuse always",
    "  server s1 127.0.0.1:9001",
    "client web 0 0",
    "piece 0 0 \"POST /a HTTP/1.1\\r\\nHost: h\\r\\nTransfer-Encoding: chunked\\r\\n\\r\\nzz\"",
    "end 0 40",
    "server web/s1",
    "piece 0 28 \"HTTP/1.1 200 OK\\r\\nContent-Length: 2\\r\\n\\r\\nhi\"",
];

const BAD_CHUNK_TOLD: [&str; 16] = [
    "hx-transcript 1",
    "server web/s1 always -1 0 5000",
    "open 0.1 1",
    "close 0.1 1",
    "gate 0 drain",
    "records",
    "own 0.1 1 400 ask 0-59 gave 0-66",
    "left 0.1 59-59 own",
    "links",
    "client 0.1 took \"POST /a HTTP/1.1\\r\\nHost: h\\r\\nTransfer-Encoding: chunked\\r\\n\\r\\nzz\"",
    "client 0.1 gave \"HTTP/1.1 400 Bad Request\\r\\nContent-Length: 0\\r\\nConnection: close\\r\\n\\r\\n\"",
    "conn web/s1#1 sent \"POST /a HTTP/1.1\\r\\nHost: h\\r\\nTransfer-Encoding: chunked\\r\\n\\r\\n\"",
    "conn web/s1#1 took \"\"",
    "totals",
    "web/s1 open 1 park 0 take 0 over 0 care 0 close 1",
    "end",
];

const BOTH_LENGTHS: [&str; 11] = [
    "hx-script 1",
    "config 4",
    "listen web",
    "  bind :8080",
    "  http-reuse always",
    "  server s1 127.0.0.1:9001",
    "client web 0 0",
    "piece 0 0 \"GET /a HTTP/1.1\\r\\nHost: h\\r\\n\\r\\n\"",
    "end 0 40",
    "server web/s1",
    "piece 0 28 \"HTTP/1.1 200 OK\\r\\nContent-Length: 2\\r\\nTransfer-Encoding: chunked\\r\\n\\r\\n\"",
];

const BOTH_LENGTHS_TOLD: [&str; 16] = [
    "hx-transcript 1",
    "server web/s1 always -1 0 5000",
    "open 0.1 1",
    "close 0.1 1",
    "gate 0 drain",
    "records",
    "own 0.1 1 502 ask 0-28 gave 0-66",
    "left 0.1 28-28 own",
    "links",
    "client 0.1 took \"GET /a HTTP/1.1\\r\\nHost: h\\r\\n\\r\\n\"",
    "client 0.1 gave \"HTTP/1.1 502 Bad Gateway\\r\\nContent-Length: 0\\r\\nConnection: close\\r\\n\\r\\n\"",
    "conn web/s1#1 sent \"GET /a HTTP/1.1\\r\\nHost: h\\r\\n\\r\\n\"",
    "conn web/s1#1 took \"HTTP/1.1 200 OK\\r\\nContent-Length: 2\\r\\nTransfer-Encoding: chunked\\r\\n\\r\\n\"",
    "totals",
    "web/s1 open 1 park 0 take 0 over 0 care 0 close 1",
    "end",
];

const SWITCHED: [&str; 11] = [
    "hx-script 1",
    "config 4",
    "listen web",
    "  bind :8080",
    "  http-reuse always",
    "  server s1 127.0.0.1:9001",
    "client web 0 0",
    "piece 0 0 \"GET /a HTTP/1.1\\r\\nHost: h\\r\\n\\r\\n\"",
    "end 0 40",
    "server web/s1",
    "piece 0 28 \"HTTP/1.1 101 X\\r\\n\\r\\n\"",
];

const SWITCHED_TOLD: [&str; 16] = [
    "hx-transcript 1",
    "server web/s1 always -1 0 5000",
    "open 0.1 1",
    "close 0.1 1",
    "gate 0 drain",
    "records",
    "own 0.1 1 502 ask 0-28 gave 0-66",
    "left 0.1 28-28 own",
    "links",
    "client 0.1 took \"GET /a HTTP/1.1\\r\\nHost: h\\r\\n\\r\\n\"",
    "client 0.1 gave \"HTTP/1.1 502 Bad Gateway\\r\\nContent-Length: 0\\r\\nConnection: close\\r\\n\\r\\n\"",
    "conn web/s1#1 sent \"GET /a HTTP/1.1\\r\\nHost: h\\r\\n\\r\\n\"",
    "conn web/s1#1 took \"HTTP/1.1 101 X\\r\\n\\r\\n\"",
    "totals",
    "web/s1 open 1 park 0 take 0 over 0 care 0 close 1",
    "end",
];

const SERVER_FAILS: [&str; 12] = [
    "hx-script 1",
    "config 4",
    "listen web",
    "  bind :8080",
    "  http-reuse always",
    "  server s1 127.0.0.1:9001",
    "client web 0 0",
    "piece 0 0 \"GET /a HTTP/1.1\\r\\nHost: h\\r\\n\\r\\n\"",
    "end 0 40",
    "server web/s1",
    "piece 0 28 \"HTTP/1.1 200 OK\\r\\nContent-Length: 2\\r\\n\\r\\nhi\"",
    "fail 2",
];

const SERVER_FAILS_TOLD: [&str; 16] = [
    "hx-transcript 1",
    "server web/s1 always -1 0 5000",
    "open 0.1 1",
    "close 0.1 1",
    "gate 0 drain",
    "records",
    "own 0.1 1 502 ask 0-28 gave 0-66",
    "left 0.1 28-28 own",
    "links",
    "client 0.1 took \"GET /a HTTP/1.1\\r\\nHost: h\\r\\n\\r\\n\"",
    "client 0.1 gave \"HTTP/1.1 502 Bad Gateway\\r\\nContent-Length: 0\\r\\nConnection: close\\r\\n\\r\\n\"",
    "conn web/s1#1 sent \"GET /a HTTP/1.1\\r\\nHost: h\\r\\n\\r\\n\"",
    "conn web/s1#1 took \"\"",
    "totals",
    "web/s1 open 1 park 0 take 0 over 0 care 0 close 1",
    "end",
];

const CLIENT_FAILS: [&str; 12] = [
    "hx-script 1",
    "config 4",
    "listen web",
    "  bind :8080",
    "  http-reuse always",
    "  server s1 127.0.0.1:9001",
    "client web 0 0",
    "piece 0 0 \"GET /a HTTP/1.1\\r\\nHost: h\\r\\n\\r\\n\"",
    "end 0 40",
    "fail 1",
    "server web/s1",
    "piece 0 28 \"HTTP/1.1 200 OK\\r\\nContent-Length: 2\\r\\n\\r\\nhi\"",
];

const CLIENT_FAILS_TOLD: [&str; 11] = [
    "hx-transcript 1",
    "server web/s1 always -1 0 5000",
    "gate 0 drain",
    "records",
    "left 0.1 0-0 fault",
    "links",
    "client 0.1 took \"\"",
    "client 0.1 gave \"\"",
    "totals",
    "web/s1 open 0 park 0 take 0 over 0 care 0 close 0",
    "end",
];

const FAILS_AT_REST: [&str; 14] = [
    "hx-script 1",
    "config 4",
    "listen web",
    "  bind :8080",
    "  http-reuse always",
    "  server s1 127.0.0.1:9001",
    "client web 0 0",
    "piece 0 0 \"GET /a HTTP/1.1\\r\\nHost: h\\r\\n\\r\\nGET /a HTTP/1.1\\r\\nHost: h\\r\\n\\r\\n\"",
    "end 0 80",
    "server web/s1",
    "piece 0 28 \"HTTP/1.1 200 OK\\r\\nContent-Length: 2\\r\\n\\r\\nhi\"",
    "fail 3",
    "server web/s1",
    "piece 0 28 \"HTTP/1.1 200 OK\\r\\nContent-Length: 2\\r\\n\\r\\nhi\"",
];

const FAILS_AT_REST_TOLD: [&str; 25] = [
    "hx-transcript 1",
    "server web/s1 always -1 0 5000",
    "open 0.1 1",
    "park 0.1 1 0:0 1",
    "take 0.1 1 0:0 1 later",
    "close 0.1 1",
    "open 0.1 2",
    "park 0.1 2 0:0 1",
    "gate 0 drain",
    "take 0.0 2 0:0 1 later",
    "close 0.0 2",
    "records",
    "pass 0.1 1 web/s1#1 1 ask 0-28 sent 0-28 took 0-40 gave 0-40 keep",
    "pass 0.1 2 web/s1#2 1 ask 28-56 sent 0-28 took 0-40 gave 40-80 keep",
    "left 0.1 56-56 end",
    "links",
    "client 0.1 took \"GET /a HTTP/1.1\\r\\nHost: h\\r\\n\\r\\nGET /a HTTP/1.1\\r\\nHost: h\\r\\n\\r\\n\"",
    "client 0.1 gave \"HTTP/1.1 200 OK\\r\\nContent-Length: 2\\r\\n\\r\\nhiHTTP/1.1 200 OK\\r\\nContent-Length: 2\\r\\n\\r\\nhi\"",
    "conn web/s1#1 sent \"GET /a HTTP/1.1\\r\\nHost: h\\r\\n\\r\\n\"",
    "conn web/s1#1 took \"HTTP/1.1 200 OK\\r\\nContent-Length: 2\\r\\n\\r\\nhi\"",
    "conn web/s1#2 sent \"GET /a HTTP/1.1\\r\\nHost: h\\r\\n\\r\\n\"",
    "conn web/s1#2 took \"HTTP/1.1 200 OK\\r\\nContent-Length: 2\\r\\n\\r\\nhi\"",
    "totals",
    "web/s1 open 2 park 2 take 1 over 0 care 1 close 2",
    "end",
];

#[test]
fn bad_bytes_of_a_client(rt: HostRuntime) -> Result<(), Fail> {
    let alloc = rt.alloc();
    assert_eq!(rt;
        play_lines(alloc, &BAD_CHUNK)?,
        joined(alloc, &BAD_CHUNK_TOLD)?
    );
    Ok(())
}

#[test]
fn bad_heads_of_a_server(rt: HostRuntime) -> Result<(), Fail> {
    let alloc = rt.alloc();
    assert_eq!(rt;
        play_lines(alloc, &BOTH_LENGTHS)?,
        joined(alloc, &BOTH_LENGTHS_TOLD)?
    );
    assert_eq!(rt;
        play_lines(alloc, &SWITCHED)?,
        joined(alloc, &SWITCHED_TOLD)?
    );
    Ok(())
}

#[test]
fn a_link_fails(rt: HostRuntime) -> Result<(), Fail> {
    let alloc = rt.alloc();
    assert_eq!(rt;
        play_lines(alloc, &SERVER_FAILS)?,
        joined(alloc, &SERVER_FAILS_TOLD)?
    );
    assert_eq!(rt;
        play_lines(alloc, &CLIENT_FAILS)?,
        joined(alloc, &CLIENT_FAILS_TOLD)?
    );
    assert_eq!(rt;
        play_lines(alloc, &FAILS_AT_REST)?,
        joined(alloc, &FAILS_AT_REST_TOLD)?
    );
    Ok(())
}
