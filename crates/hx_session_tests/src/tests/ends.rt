//! Whole transcripts of exchanges that are cut off, and of own answers.

use crate::tests::play::{joined, play_lines};
use std::test::Fail;

const CUT: [&str; 12] = [
    "hx-script 1",
    "config 4",
    "listen web",
    "  bind :8080",
    "  http-reuse always",
    "  server s1 127.0.0.1:9001",
    "client web 0 0",
    "piece 0 0 \"GET /a HTTP/1.1\\r\\nHost: h\\r\\n\\r\\n\"",
    "end 0 40",
    "server web/s1",
    "piece 0 28 \"HTTP/1.1 200 OK\\r\\nContent-Length: 10\\r\\n\\r\\nhi\"",
    "end 0 28",
];

const CUT_TOLD: [&str; 16] = [
    "hx-transcript 1",
    "server web/s1 always -1 0 5000",
    "open 0.1 1",
    "close 0.1 1",
    "gate 0 drain",
    "records",
    "cut 0.1 1 web/s1#1 1 ask 0-28 sent 0-28 took 0-41 gave 0-41 close-no ended",
    "left 0.1 28-28 cut",
    "links",
    "client 0.1 took \"GET /a HTTP/1.1\\r\\nHost: h\\r\\n\\r\\n\"",
    "client 0.1 gave \"HTTP/1.1 200 OK\\r\\nContent-Length: 10\\r\\n\\r\\nhi\"",
    "conn web/s1#1 sent \"GET /a HTTP/1.1\\r\\nHost: h\\r\\n\\r\\n\"",
    "conn web/s1#1 took \"HTTP/1.1 200 OK\\r\\nContent-Length: 10\\r\\n\\r\\nhi\"",
    "totals",
    "web/s1 open 1 park 0 take 0 over 0 care 0 close 1",
    "end",
];

const NO_ANSWER: [&str; 11] = [
    "hx-script 1",
    "config 4",
    "listen web",
    "  bind :8080",
    "  http-reuse always",
    "  server s1 127.0.0.1:9001",
    "client web 0 0",
    "piece 0 0 \"GET /a HTTP/1.1\\r\\nHost: h\\r\\n\\r\\n\"",
    "end 0 40",
    "server web/s1",
    "end 0 28",
];

const NO_ANSWER_TOLD: [&str; 16] = [
    "hx-transcript 1",
    "server web/s1 always -1 0 5000",
    "open 0.1 1",
    "close 0.1 1",
    "gate 0 drain",
    "records",
    "own 0.1 1 502 ask 0-28 gave 0-66",
    "left 0.1 28-28 own",
    "links",
    "client 0.1 took \"GET /a HTTP/1.1\\r\\nHost: h\\r\\n\\r\\n\"",
    "client 0.1 gave \"HTTP/1.1 502 Bad Gateway\\r\\nContent-Length: 0\\r\\nConnection: close\\r\\n\\r\\n\"",
    "conn web/s1#1 sent \"GET /a HTTP/1.1\\r\\nHost: h\\r\\n\\r\\n\"",
    "conn web/s1#1 took \"\"",
    "totals",
    "web/s1 open 1 park 0 take 0 over 0 care 0 close 1",
    "end",
];

const SILENT: [&str; 12] = [
    "hx-script 1",
    "config 4",
    "listen web",
    "  bind :8080",
    "  http-reuse always",
    "  server s1 127.0.0.1:9001",
    "client web 0 0",
    "piece 0 0 \"GET /a HTTP/1.1\\r\\nHost: h\\r\\n\\r\\nGET /a HTTP/1.1\\r\\nHost: h\\r\\n\\r\\n\"",
    "end 0 80",
    "server web/s1",
    "piece 0 28 \"HTTP/1.1 200 OK\\r\\nContent-Length: 2\\r\\n\\r\\nhi\"",
    "end 0 56",
];

const SILENT_TOLD: [&str; 19] = [
    "hx-transcript 1",
    "server web/s1 always -1 0 5000",
    "open 0.1 1",
    "park 0.1 1 0:0 1",
    "take 0.1 1 0:0 1 later",
    "close 0.1 1",
    "gate 0 drain",
    "records",
    "pass 0.1 1 web/s1#1 1 ask 0-28 sent 0-28 took 0-40 gave 0-40 keep",
    "cut 0.1 2 web/s1#1 2 ask 28-56 sent 28-56 took 40-40 gave 40-40 close-no silent",
    "left 0.1 56-56 cut",
    "links",
    "client 0.1 took \"GET /a HTTP/1.1\\r\\nHost: h\\r\\n\\r\\nGET /a HTTP/1.1\\r\\nHost: h\\r\\n\\r\\n\"",
    "client 0.1 gave \"HTTP/1.1 200 OK\\r\\nContent-Length: 2\\r\\n\\r\\nhi\"",
    "conn web/s1#1 sent \"GET /a HTTP/1.1\\r\\nHost: h\\r\\n\\r\\nGET /a HTTP/1.1\\r\\nHost: h\\r\\n\\r\\n\"",
    "conn web/s1#1 took \"HTTP/1.1 200 OK\\r\\nContent-Length: 2\\r\\n\\r\\nhi\"",
    "totals",
    "web/s1 open 1 park 1 take 1 over 0 care 0 close 1",
    "end",
];

const TWO_LENGTHS: [&str; 11] = [
    "hx-script 1",
    "config 4",
    "listen web",
    "  bind :8080",
    "  http-reuse always",
    "  server s1 127.0.0.1:9001",
    "client web 0 0",
    "piece 0 0 \"POST /a HTTP/1.1\\r\\nHost: h\\r\\nContent-Length: 2\\r\\nTransfer-Encoding: chunked\\r\\n\\r\\n\"",
    "end 0 40",
    "server web/s1",
    "piece 0 28 \"HTTP/1.1 200 OK\\r\\nContent-Length: 2\\r\\n\\r\\nhi\"",
];

const TWO_LENGTHS_TOLD: [&str; 12] = [
    "hx-transcript 1",
    "server web/s1 always -1 0 5000",
    "gate 0 drain",
    "records",
    "own 0.1 1 400 ask 0-76 gave 0-66",
    "left 0.1 76-76 own",
    "links",
    "client 0.1 took \"POST /a HTTP/1.1\\r\\nHost: h\\r\\nContent-Length: 2\\r\\nTransfer-Encoding: chunked\\r\\n\\r\\n\"",
    "client 0.1 gave \"HTTP/1.1 400 Bad Request\\r\\nContent-Length: 0\\r\\nConnection: close\\r\\n\\r\\n\"",
    "totals",
    "web/s1 open 0 park 0 take 0 over 0 care 0 close 0",
    "end",
];

const VERSION: [&str; 11] = [
    "hx-script 1",
    "config 4",
    "listen web",
    "  bind :8080",
    "  http-reuse always",
    "  server s1 127.0.0.1:9001",
    "client web 0 0",
    "piece 0 0 \"GET / HTTP/1.0\\r\\n\\r\\n\"",
    "end 0 40",
    "server web/s1",
    "piece 0 28 \"HTTP/1.1 200 OK\\r\\nContent-Length: 2\\r\\n\\r\\nhi\"",
];

const VERSION_TOLD: [&str; 12] = [
    "hx-transcript 1",
    "server web/s1 always -1 0 5000",
    "gate 0 drain",
    "records",
    "own 0.1 1 505 ask 0-18 gave 0-81",
    "left 0.1 18-18 own",
    "links",
    "client 0.1 took \"GET / HTTP/1.0\\r\\n\\r\\n\"",
    "client 0.1 gave \"HTTP/1.1 505 HTTP Version Not Supported\\r\\nContent-Length: 0\\r\\nConnection: close\\r\\n\\r\\n\"",
    "totals",
    "web/s1 open 0 park 0 take 0 over 0 care 0 close 0",
    "end",
];

const CLIENT_LATE: [&str; 12] = [
    "hx-script 1",
    "config 5",
    "listen web",
    "  bind :8080",
    "  http-reuse always",
    "  timeout client 100",
    "  server s1 127.0.0.1:9001",
    "client web 0 0",
    "piece 0 0 \"GET\"",
    "server web/s1",
    "piece 0 28 \"HTTP/1.1 200 OK\\r\\nContent-Length: 2\\r\\n\\r\\nhi\"",
    "tick 100",
];

const CLIENT_LATE_TOLD: [&str; 12] = [
    "hx-transcript 1",
    "server web/s1 always -1 0 5000",
    "gate 0 drain",
    "records",
    "own 0.1 1 408 ask 0-3 gave 0-70",
    "left 0.1 3-3 own",
    "links",
    "client 0.1 took \"GET\"",
    "client 0.1 gave \"HTTP/1.1 408 Request Timeout\\r\\nContent-Length: 0\\r\\nConnection: close\\r\\n\\r\\n\"",
    "totals",
    "web/s1 open 0 park 0 take 0 over 0 care 0 close 0",
    "end",
];

const SERVER_LATE: [&str; 12] = [
    "hx-script 1",
    "config 5",
    "listen web",
    "  bind :8080",
    "  http-reuse always",
    "  timeout server 50",
    "  server s1 127.0.0.1:9001",
    "client web 0 0",
    "piece 0 0 \"GET /a HTTP/1.1\\r\\nHost: h\\r\\n\\r\\n\"",
    "end 0 40",
    "server web/s1",
    "tick 50",
];

const SERVER_LATE_TOLD: [&str; 16] = [
    "hx-transcript 1",
    "server web/s1 always -1 0 5000",
    "open 0.1 1",
    "close 0.1 1",
    "gate 0 drain",
    "records",
    "own 0.1 1 504 ask 0-28 gave 0-70",
    "left 0.1 28-28 own",
    "links",
    "client 0.1 took \"GET /a HTTP/1.1\\r\\nHost: h\\r\\n\\r\\n\"",
    "client 0.1 gave \"HTTP/1.1 504 Gateway Timeout\\r\\nContent-Length: 0\\r\\nConnection: close\\r\\n\\r\\n\"",
    "conn web/s1#1 sent \"GET /a HTTP/1.1\\r\\nHost: h\\r\\n\\r\\n\"",
    "conn web/s1#1 took \"\"",
    "totals",
    "web/s1 open 1 park 0 take 0 over 0 care 0 close 1",
    "end",
];

const NO_PLAN: [&str; 9] = [
    "hx-script 1",
    "config 4",
    "listen web",
    "  bind :8080",
    "  http-reuse always",
    "  server s1 127.0.0.1:9001",
    "client web 0 0",
    "piece 0 0 \"GET /a HTTP/1.1\\r\\nHost: h\\r\\n\\r\\n\"",
    "end 0 40",
];

const NO_PLAN_TOLD: [&str; 14] = [
    "hx-transcript 1",
    "server web/s1 always -1 0 5000",
    "open 0.1 1",
    "close 0.1 1",
    "gate 0 drain",
    "records",
    "own 0.1 1 503 ask 0-28 gave 0-74",
    "left 0.1 28-28 own",
    "links",
    "client 0.1 took \"GET /a HTTP/1.1\\r\\nHost: h\\r\\n\\r\\n\"",
    "client 0.1 gave \"HTTP/1.1 503 Service Unavailable\\r\\nContent-Length: 0\\r\\nConnection: close\\r\\n\\r\\n\"",
    "totals",
    "web/s1 open 1 park 0 take 0 over 0 care 0 close 1",
    "end",
];

const UNKNOWN_CODING: [&str; 8] = [
    "hx-script 1",
    "config 4",
    "listen web",
    "  bind :8080",
    "  http-reuse always",
    "  server s1 127.0.0.1:9001",
    "client web 0 0",
    "piece 0 0 \"POST /a HTTP/1.1\\r\\nHost: h\\r\\nTransfer-Encoding: gzip\\r\\n\\r\\n\"",
];

const UNKNOWN_CODING_TOLD: [&str; 12] = [
    "hx-transcript 1",
    "server web/s1 always -1 0 5000",
    "gate 0 drain",
    "records",
    "own 0.1 1 501 ask 0-54 gave 0-70",
    "left 0.1 54-54 own",
    "links",
    "client 0.1 took \"POST /a HTTP/1.1\\r\\nHost: h\\r\\nTransfer-Encoding: gzip\\r\\n\\r\\n\"",
    "client 0.1 gave \"HTTP/1.1 501 Not Implemented\\r\\nContent-Length: 0\\r\\nConnection: close\\r\\n\\r\\n\"",
    "totals",
    "web/s1 open 0 park 0 take 0 over 0 care 0 close 0",
    "end",
];

#[test]
fn cut_answers(rt: HostRuntime) -> Result<(), Fail> {
    let alloc = rt.alloc();
    assert_eq!(rt; play_lines(alloc, &CUT)?, joined(alloc, &CUT_TOLD)?);
    assert_eq!(rt;
        play_lines(alloc, &NO_ANSWER)?,
        joined(alloc, &NO_ANSWER_TOLD)?
    );
    assert_eq!(rt; play_lines(alloc, &SILENT)?, joined(alloc, &SILENT_TOLD)?);
    Ok(())
}

#[test]
fn refused_heads(rt: HostRuntime) -> Result<(), Fail> {
    let alloc = rt.alloc();
    assert_eq!(rt;
        play_lines(alloc, &TWO_LENGTHS)?,
        joined(alloc, &TWO_LENGTHS_TOLD)?
    );
    assert_eq!(rt; play_lines(alloc, &VERSION)?, joined(alloc, &VERSION_TOLD)?);
    assert_eq!(rt;
        play_lines(alloc, &UNKNOWN_CODING)?,
        joined(alloc, &UNKNOWN_CODING_TOLD)?
    );
    Ok(())
}

#[test]
fn deadlines(rt: HostRuntime) -> Result<(), Fail> {
    let alloc = rt.alloc();
    assert_eq!(rt;
        play_lines(alloc, &CLIENT_LATE)?,
        joined(alloc, &CLIENT_LATE_TOLD)?
    );
    assert_eq!(rt;
        play_lines(alloc, &SERVER_LATE)?,
        joined(alloc, &SERVER_LATE_TOLD)?
    );
    Ok(())
}

#[test]
fn no_connection(rt: HostRuntime) -> Result<(), Fail> {
    let alloc = rt.alloc();
    assert_eq!(rt; play_lines(alloc, &NO_PLAN)?, joined(alloc, &NO_PLAN_TOLD)?);
    Ok(())
}
