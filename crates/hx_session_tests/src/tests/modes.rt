//! Whole transcripts under the modes of reuse.

use crate::tests::play::{joined, play_lines};
use std::test::Fail;

const SAFE: [&str; 18] = [
    "hx-script 1",
    "config 4",
    "listen web",
    "  bind :8080",
    "  http-reuse safe",
    "  server s1 127.0.0.1:9001",
    "client web 0 0",
    "piece 0 0 \"GET /a HTTP/1.1\\r\\nHost: h\\r\\n\\r\\n\"",
    "end 0 40",
    "client web 0 10",
    "piece 10 0 \"GET /a HTTP/1.1\\r\\nHost: h\\r\\n\\r\\n\"",
    "end 10 40",
    "server web/s1",
    "piece 0 28 \"HTTP/1.1 200 OK\\r\\nContent-Length: 2\\r\\n\\r\\nhi\"",
    "piece 0 56 \"HTTP/1.1 200 OK\\r\\nContent-Length: 2\\r\\n\\r\\nhi\"",
    "server web/s1",
    "piece 0 28 \"HTTP/1.1 200 OK\\r\\nContent-Length: 2\\r\\n\\r\\nhi\"",
    "piece 0 56 \"HTTP/1.1 200 OK\\r\\nContent-Length: 2\\r\\n\\r\\nhi\"",
];

const SAFE_TOLD: [&str; 28] = [
    "hx-transcript 1",
    "server web/s1 safe -1 0 5000",
    "open 0.1 1",
    "park 0.1 1 0:0 1",
    "open 0.2 2",
    "park 0.2 2 0:1 1",
    "gate 0 drain",
    "take 0.0 1 0:0 1 later",
    "close 0.0 1",
    "take 0.0 2 0:1 1 later",
    "close 0.0 2",
    "records",
    "pass 0.1 1 web/s1#1 1 ask 0-28 sent 0-28 took 0-40 gave 0-40 keep",
    "left 0.1 28-28 end",
    "pass 0.2 1 web/s1#2 1 ask 0-28 sent 0-28 took 0-40 gave 0-40 keep",
    "left 0.2 28-28 end",
    "links",
    "client 0.1 took \"GET /a HTTP/1.1\\r\\nHost: h\\r\\n\\r\\n\"",
    "client 0.1 gave \"HTTP/1.1 200 OK\\r\\nContent-Length: 2\\r\\n\\r\\nhi\"",
    "client 0.2 took \"GET /a HTTP/1.1\\r\\nHost: h\\r\\n\\r\\n\"",
    "client 0.2 gave \"HTTP/1.1 200 OK\\r\\nContent-Length: 2\\r\\n\\r\\nhi\"",
    "conn web/s1#1 sent \"GET /a HTTP/1.1\\r\\nHost: h\\r\\n\\r\\n\"",
    "conn web/s1#1 took \"HTTP/1.1 200 OK\\r\\nContent-Length: 2\\r\\n\\r\\nhi\"",
    "conn web/s1#2 sent \"GET /a HTTP/1.1\\r\\nHost: h\\r\\n\\r\\n\"",
    "conn web/s1#2 took \"HTTP/1.1 200 OK\\r\\nContent-Length: 2\\r\\n\\r\\nhi\"",
    "totals",
    "web/s1 open 2 park 2 take 0 over 0 care 2 close 2",
    "end",
];

const AGGRESSIVE: [&str; 35] = [
    "hx-script 1",
    "config 4",
    "listen web",
    "  bind :8080",
    "  http-reuse aggressive",
    "  server s1 127.0.0.1:9001",
    "client web 0 0",
    "piece 0 0 \"GET /a HTTP/1.1\\r\\nHost: h\\r\\n\\r\\n\"",
    "end 0 40",
    "client web 0 10",
    "piece 10 0 \"GET /a HTTP/1.1\\r\\nHost: h\\r\\n\\r\\nGET /a HTTP/1.1\\r\\nHost: h\\r\\n\\r\\n\"",
    "end 10 80",
    "client web 0 20",
    "piece 20 0 \"GET /a HTTP/1.1\\r\\nHost: h\\r\\n\\r\\n\"",
    "end 20 40",
    "server web/s1",
    "piece 0 28 \"HTTP/1.1 200 OK\\r\\nContent-Length: 2\\r\\n\\r\\nhi\"",
    "piece 0 56 \"HTTP/1.1 200 OK\\r\\nContent-Length: 2\\r\\n\\r\\nhi\"",
    "piece 0 84 \"HTTP/1.1 200 OK\\r\\nContent-Length: 2\\r\\n\\r\\nhi\"",
    "piece 0 112 \"HTTP/1.1 200 OK\\r\\nContent-Length: 2\\r\\n\\r\\nhi\"",
    "piece 0 140 \"HTTP/1.1 200 OK\\r\\nContent-Length: 2\\r\\n\\r\\nhi\"",
    "piece 0 168 \"HTTP/1.1 200 OK\\r\\nContent-Length: 2\\r\\n\\r\\nhi\"",
    "piece 0 196 \"HTTP/1.1 200 OK\\r\\nContent-Length: 2\\r\\n\\r\\nhi\"",
    "piece 0 224 \"HTTP/1.1 200 OK\\r\\nContent-Length: 2\\r\\n\\r\\nhi\"",
    "piece 0 252 \"HTTP/1.1 200 OK\\r\\nContent-Length: 2\\r\\n\\r\\nhi\"",
    "server web/s1",
    "piece 0 28 \"HTTP/1.1 200 OK\\r\\nContent-Length: 2\\r\\n\\r\\nhi\"",
    "piece 0 56 \"HTTP/1.1 200 OK\\r\\nContent-Length: 2\\r\\n\\r\\nhi\"",
    "piece 0 84 \"HTTP/1.1 200 OK\\r\\nContent-Length: 2\\r\\n\\r\\nhi\"",
    "piece 0 112 \"HTTP/1.1 200 OK\\r\\nContent-Length: 2\\r\\n\\r\\nhi\"",
    "piece 0 140 \"HTTP/1.1 200 OK\\r\\nContent-Length: 2\\r\\n\\r\\nhi\"",
    "piece 0 168 \"HTTP/1.1 200 OK\\r\\nContent-Length: 2\\r\\n\\r\\nhi\"",
    "piece 0 196 \"HTTP/1.1 200 OK\\r\\nContent-Length: 2\\r\\n\\r\\nhi\"",
    "piece 0 224 \"HTTP/1.1 200 OK\\r\\nContent-Length: 2\\r\\n\\r\\nhi\"",
    "piece 0 252 \"HTTP/1.1 200 OK\\r\\nContent-Length: 2\\r\\n\\r\\nhi\"",
];

const AGGRESSIVE_TOLD: [&str; 37] = [
    "hx-transcript 1",
    "server web/s1 aggressive -1 0 5000",
    "open 0.1 1",
    "park 0.1 1 0:0 1",
    "open 0.2 2",
    "park 0.2 2 0:1 1",
    "take 0.2 2 0:1 1 later",
    "park 0.2 2 0:1 2",
    "take 0.3 2 0:1 2 first",
    "park 0.3 2 0:1 3",
    "gate 0 drain",
    "take 0.0 1 0:0 1 later",
    "close 0.0 1",
    "take 0.0 2 0:1 3 later",
    "close 0.0 2",
    "records",
    "pass 0.1 1 web/s1#1 1 ask 0-28 sent 0-28 took 0-40 gave 0-40 keep",
    "left 0.1 28-28 end",
    "pass 0.2 1 web/s1#2 1 ask 0-28 sent 0-28 took 0-40 gave 0-40 keep",
    "pass 0.2 2 web/s1#2 2 ask 28-56 sent 28-56 took 40-80 gave 40-80 keep",
    "left 0.2 56-56 end",
    "pass 0.3 1 web/s1#2 3 ask 0-28 sent 56-84 took 80-120 gave 0-40 keep",
    "left 0.3 28-28 end",
    "links",
    "client 0.1 took \"GET /a HTTP/1.1\\r\\nHost: h\\r\\n\\r\\n\"",
    "client 0.1 gave \"HTTP/1.1 200 OK\\r\\nContent-Length: 2\\r\\n\\r\\nhi\"",
    "client 0.2 took \"GET /a HTTP/1.1\\r\\nHost: h\\r\\n\\r\\nGET /a HTTP/1.1\\r\\nHost: h\\r\\n\\r\\n\"",
    "client 0.2 gave \"HTTP/1.1 200 OK\\r\\nContent-Length: 2\\r\\n\\r\\nhiHTTP/1.1 200 OK\\r\\nContent-Length: 2\\r\\n\\r\\nhi\"",
    "client 0.3 took \"GET /a HTTP/1.1\\r\\nHost: h\\r\\n\\r\\n\"",
    "client 0.3 gave \"HTTP/1.1 200 OK\\r\\nContent-Length: 2\\r\\n\\r\\nhi\"",
    "conn web/s1#1 sent \"GET /a HTTP/1.1\\r\\nHost: h\\r\\n\\r\\n\"",
    "conn web/s1#1 took \"HTTP/1.1 200 OK\\r\\nContent-Length: 2\\r\\n\\r\\nhi\"",
    "conn web/s1#2 sent \"GET /a HTTP/1.1\\r\\nHost: h\\r\\n\\r\\nGET /a HTTP/1.1\\r\\nHost: h\\r\\n\\r\\nGET /a HTTP/1.1\\r\\nHost: h\\r\\n\\r\\n\"",
    "conn web/s1#2 took \"HTTP/1.1 200 OK\\r\\nContent-Length: 2\\r\\n\\r\\nhiHTTP/1.1 200 OK\\r\\nContent-Length: 2\\r\\n\\r\\nhiHTTP/1.1 200 OK\\r\\nContent-Length: 2\\r\\n\\r\\nhi\"",
    "totals",
    "web/s1 open 2 park 4 take 2 over 0 care 2 close 2",
    "end",
];

const NEVER: [&str; 18] = [
    "hx-script 1",
    "config 4",
    "listen web",
    "  bind :8080",
    "  http-reuse never",
    "  server s1 127.0.0.1:9001",
    "client web 0 0",
    "piece 0 0 \"GET /a HTTP/1.1\\r\\nHost: h\\r\\n\\r\\n\"",
    "end 0 40",
    "client web 0 10",
    "piece 10 0 \"GET /a HTTP/1.1\\r\\nHost: h\\r\\n\\r\\n\"",
    "end 10 40",
    "server web/s1",
    "piece 0 28 \"HTTP/1.1 200 OK\\r\\nContent-Length: 2\\r\\n\\r\\nhi\"",
    "piece 0 56 \"HTTP/1.1 200 OK\\r\\nContent-Length: 2\\r\\n\\r\\nhi\"",
    "server web/s1",
    "piece 0 28 \"HTTP/1.1 200 OK\\r\\nContent-Length: 2\\r\\n\\r\\nhi\"",
    "piece 0 56 \"HTTP/1.1 200 OK\\r\\nContent-Length: 2\\r\\n\\r\\nhi\"",
];

const NEVER_TOLD: [&str; 24] = [
    "hx-transcript 1",
    "server web/s1 never -1 0 5000",
    "open 0.1 1",
    "close 0.1 1",
    "open 0.2 2",
    "close 0.2 2",
    "gate 0 drain",
    "records",
    "pass 0.1 1 web/s1#1 1 ask 0-28 sent 0-28 took 0-40 gave 0-40 keep",
    "left 0.1 28-28 end",
    "pass 0.2 1 web/s1#2 1 ask 0-28 sent 0-28 took 0-40 gave 0-40 keep",
    "left 0.2 28-28 end",
    "links",
    "client 0.1 took \"GET /a HTTP/1.1\\r\\nHost: h\\r\\n\\r\\n\"",
    "client 0.1 gave \"HTTP/1.1 200 OK\\r\\nContent-Length: 2\\r\\n\\r\\nhi\"",
    "client 0.2 took \"GET /a HTTP/1.1\\r\\nHost: h\\r\\n\\r\\n\"",
    "client 0.2 gave \"HTTP/1.1 200 OK\\r\\nContent-Length: 2\\r\\n\\r\\nhi\"",
    "conn web/s1#1 sent \"GET /a HTTP/1.1\\r\\nHost: h\\r\\n\\r\\n\"",
    "conn web/s1#1 took \"HTTP/1.1 200 OK\\r\\nContent-Length: 2\\r\\n\\r\\nhi\"",
    "conn web/s1#2 sent \"GET /a HTTP/1.1\\r\\nHost: h\\r\\n\\r\\n\"",
    "conn web/s1#2 took \"HTTP/1.1 200 OK\\r\\nContent-Length: 2\\r\\n\\r\\nhi\"",
    "totals",
    "web/s1 open 2 park 0 take 0 over 0 care 0 close 2",
    "end",
];

const ALWAYS: [&str; 18] = [
    "hx-script 1",
    "config 4",
    "listen web",
    "  bind :8080",
    "  http-reuse always",
    "  server s1 127.0.0.1:9001",
    "client web 0 0",
    "piece 0 0 \"GET /a HTTP/1.1\\r\\nHost: h\\r\\n\\r\\n\"",
    "end 0 40",
    "client web 0 10",
    "piece 10 0 \"GET /a HTTP/1.1\\r\\nHost: h\\r\\n\\r\\n\"",
    "end 10 40",
    "server web/s1",
    "piece 0 28 \"HTTP/1.1 200 OK\\r\\nContent-Length: 2\\r\\n\\r\\nhi\"",
    "piece 0 56 \"HTTP/1.1 200 OK\\r\\nContent-Length: 2\\r\\n\\r\\nhi\"",
    "server web/s1",
    "piece 0 28 \"HTTP/1.1 200 OK\\r\\nContent-Length: 2\\r\\n\\r\\nhi\"",
    "piece 0 56 \"HTTP/1.1 200 OK\\r\\nContent-Length: 2\\r\\n\\r\\nhi\"",
];

const ALWAYS_TOLD: [&str; 24] = [
    "hx-transcript 1",
    "server web/s1 always -1 0 5000",
    "open 0.1 1",
    "park 0.1 1 0:0 1",
    "take 0.2 1 0:0 1 first",
    "park 0.2 1 0:0 2",
    "gate 0 drain",
    "take 0.0 1 0:0 2 later",
    "close 0.0 1",
    "records",
    "pass 0.1 1 web/s1#1 1 ask 0-28 sent 0-28 took 0-40 gave 0-40 keep",
    "left 0.1 28-28 end",
    "pass 0.2 1 web/s1#1 2 ask 0-28 sent 28-56 took 40-80 gave 0-40 keep",
    "left 0.2 28-28 end",
    "links",
    "client 0.1 took \"GET /a HTTP/1.1\\r\\nHost: h\\r\\n\\r\\n\"",
    "client 0.1 gave \"HTTP/1.1 200 OK\\r\\nContent-Length: 2\\r\\n\\r\\nhi\"",
    "client 0.2 took \"GET /a HTTP/1.1\\r\\nHost: h\\r\\n\\r\\n\"",
    "client 0.2 gave \"HTTP/1.1 200 OK\\r\\nContent-Length: 2\\r\\n\\r\\nhi\"",
    "conn web/s1#1 sent \"GET /a HTTP/1.1\\r\\nHost: h\\r\\n\\r\\nGET /a HTTP/1.1\\r\\nHost: h\\r\\n\\r\\n\"",
    "conn web/s1#1 took \"HTTP/1.1 200 OK\\r\\nContent-Length: 2\\r\\n\\r\\nhiHTTP/1.1 200 OK\\r\\nContent-Length: 2\\r\\n\\r\\nhi\"",
    "totals",
    "web/s1 open 1 park 2 take 1 over 0 care 1 close 1",
    "end",
];

#[test]
fn safe_opens_for_each_first_request(rt: HostRuntime) -> Result<(), Fail> {
    let alloc = rt.alloc();
    assert_eq!(rt; play_lines(alloc, &SAFE)?, joined(alloc, &SAFE_TOLD)?);
    Ok(())
}

#[test]
fn aggressive_lends_what_was_used_twice(rt: HostRuntime) -> Result<(), Fail> {
    let alloc = rt.alloc();
    assert_eq!(rt;
        play_lines(alloc, &AGGRESSIVE)?,
        joined(alloc, &AGGRESSIVE_TOLD)?
    );
    Ok(())
}

#[test]
fn never_closes_behind_each_session(rt: HostRuntime) -> Result<(), Fail> {
    let alloc = rt.alloc();
    assert_eq!(rt; play_lines(alloc, &NEVER)?, joined(alloc, &NEVER_TOLD)?);
    Ok(())
}

#[test]
fn always_lends_to_a_first_request(rt: HostRuntime) -> Result<(), Fail> {
    let alloc = rt.alloc();
    assert_eq!(rt; play_lines(alloc, &ALWAYS)?, joined(alloc, &ALWAYS_TOLD)?);
    Ok(())
}
