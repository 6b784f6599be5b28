//! The events of an exchange, each with nothing given yet for its request and with something given, those outside an
//! exchange, and own answers.

use crate::tests::play::{joined, records_of};
use std::test::Fail;

/// A line in place of a timeout's.
const NO_TIMEOUT: &str = "# no timeout";

#[test]
fn the_servers_link_fails(rt: HostRuntime) -> Result<(), Fail> {
    let alloc = rt.alloc();
    // Nothing was given.
    let links = [
        "client web 0 0",
        "piece 0 0 \"GET /a HTTP/1.1\\r\\nHost: h\\r\\n\\r\\n\"",
        "server web/s1",
        "fail 2",
    ];
    let told = ["own 0.1 1 502 ask 0-28 gave 0-66", "left 0.1 28-28 own"];
    assert_eq!(rt;
        records_of(alloc, NO_TIMEOUT, &links)?,
        joined(alloc, &told)?
    );
    // A part was given.
    let links = [
        "client web 0 0",
        "piece 0 0 \"GET /a HTTP/1.1\\r\\nHost: h\\r\\n\\r\\n\"",
        "server web/s1",
        "fail 3",
        "piece 0 28 \"HTTP/1.1 200 OK\\r\\nContent-Length: 10\\r\\n\\r\\nhi\"",
    ];
    let told = [
        "cut 0.1 1 web/s1#1 1 ask 0-28 sent 0-28 took 0-41 gave 0-41 close-no fault",
        "left 0.1 28-28 cut",
    ];
    assert_eq!(rt;
        records_of(alloc, NO_TIMEOUT, &links)?,
        joined(alloc, &told)?
    );
    Ok(())
}

#[test]
fn the_answer_is_refused(rt: HostRuntime) -> Result<(), Fail> {
    let alloc = rt.alloc();
    // Its head.
    let links = [
        "client web 0 0",
        "piece 0 0 \"GET /a HTTP/1.1\\r\\nHost: h\\r\\n\\r\\n\"",
        "server web/s1",
        "piece 0 28 \"HTTX/1.1 200 OK\\r\\n\\r\\n\"",
    ];
    let told = ["own 0.1 1 502 ask 0-28 gave 0-66", "left 0.1 28-28 own"];
    assert_eq!(rt;
        records_of(alloc, NO_TIMEOUT, &links)?,
        joined(alloc, &told)?
    );
    // Its status is 101.
    let links = [
        "client web 0 0",
        "piece 0 0 \"GET /a HTTP/1.1\\r\\nHost: h\\r\\n\\r\\n\"",
        "server web/s1",
        "piece 0 28 \"HTTP/1.1 101 Switching Protocols\\r\\n\\r\\n\"",
    ];
    assert_eq!(rt;
        records_of(alloc, NO_TIMEOUT, &links)?,
        joined(alloc, &told)?
    );
    // Its frame.
    let links = [
        "client web 0 0",
        "piece 0 0 \"GET /a HTTP/1.1\\r\\nHost: h\\r\\n\\r\\n\"",
        "server web/s1",
        "piece 0 28 \"HTTP/1.1 200 OK\\r\\nContent-Length: 2\\r\\nTransfer-Encoding: chunked\\r\\n\\r\\n\"",
    ];
    assert_eq!(rt;
        records_of(alloc, NO_TIMEOUT, &links)?,
        joined(alloc, &told)?
    );
    Ok(())
}

#[test]
fn the_answer_is_refused_behind_a_part(rt: HostRuntime) -> Result<(), Fail> {
    let alloc = rt.alloc();
    // Its chunks, behind its head.
    let links = [
        "client web 0 0",
        "piece 0 0 \"GET /a HTTP/1.1\\r\\nHost: h\\r\\n\\r\\n\"",
        "server web/s1",
        "piece 0 28 \"HTTP/1.1 200 OK\\r\\nTransfer-Encoding: chunked\\r\\n\\r\\n\"",
        "piece 0 28 \"zz\\r\\n\"",
    ];
    let told = [
        "cut 0.1 1 web/s1#1 1 ask 0-28 sent 0-28 took 0-51 gave 0-47 close-no broken",
        "left 0.1 28-28 cut",
    ];
    assert_eq!(rt;
        records_of(alloc, NO_TIMEOUT, &links)?,
        joined(alloc, &told)?
    );
    // Its head, behind an interim answer.
    let links = [
        "client web 0 0",
        "piece 0 0 \"GET /a HTTP/1.1\\r\\nHost: h\\r\\n\\r\\n\"",
        "server web/s1",
        "piece 0 28 \"HTTP/1.1 100 Continue\\r\\n\\r\\n\"",
        "piece 0 28 \"HTTX/1.1 200 OK\\r\\n\\r\\n\"",
    ];
    let told = [
        "cut 0.1 1 web/s1#1 1 ask 0-28 sent 0-28 took 0-44 gave 0-25 close-no broken",
        "left 0.1 28-28 cut",
    ];
    assert_eq!(rt;
        records_of(alloc, NO_TIMEOUT, &links)?,
        joined(alloc, &told)?
    );
    Ok(())
}

#[test]
fn the_servers_deadline_comes(rt: HostRuntime) -> Result<(), Fail> {
    let alloc = rt.alloc();
    // A part was given.
    let links = [
        "client web 0 0",
        "piece 0 0 \"GET /a HTTP/1.1\\r\\nHost: h\\r\\n\\r\\n\"",
        "server web/s1",
        "piece 0 28 \"HTTP/1.1 200 OK\\r\\nContent-Length: 10\\r\\n\\r\\nhi\"",
        "tick 50",
    ];
    let told = [
        "cut 0.1 1 web/s1#1 1 ask 0-28 sent 0-28 took 0-41 gave 0-41 close-no late",
        "left 0.1 28-28 cut",
    ];
    assert_eq!(rt;
        records_of(alloc, "timeout server 50", &links)?,
        joined(alloc, &told)?
    );
    // It has not come.
    let links = [
        "client web 0 0",
        "piece 0 0 \"GET /a HTTP/1.1\\r\\nHost: h\\r\\n\\r\\n\"",
        "server web/s1",
        "piece 0 28 \"HTTP/1.1 200 OK\\r\\nContent-Length: 10\\r\\n\\r\\nhi\"",
        "tick 49",
    ];
    let told = [
        "cut 0.1 1 web/s1#1 1 ask 0-28 sent 0-28 took 0-41 gave 0-41 close-no stop",
        "left 0.1 28-28 stop",
    ];
    assert_eq!(rt;
        records_of(alloc, "timeout server 50", &links)?,
        joined(alloc, &told)?
    );
    Ok(())
}

#[test]
fn the_requests_chunks_are_bad(rt: HostRuntime) -> Result<(), Fail> {
    let alloc = rt.alloc();
    // Nothing was given.
    let links = [
        "client web 0 0",
        "piece 0 0 \"POST /a HTTP/1.1\\r\\nHost: h\\r\\nTransfer-Encoding: chunked\\r\\n\\r\\n\"",
        "piece 0 0 \"zz\\r\\n\"",
        "server web/s1",
    ];
    let told = ["own 0.1 1 400 ask 0-61 gave 0-66", "left 0.1 61-61 own"];
    assert_eq!(rt;
        records_of(alloc, NO_TIMEOUT, &links)?,
        joined(alloc, &told)?
    );
    // A part was given.
    let links = [
        "client web 0 0",
        "piece 0 0 \"POST /a HTTP/1.1\\r\\nHost: h\\r\\nTransfer-Encoding: chunked\\r\\n\\r\\n\"",
        "piece 0 60 \"zz\\r\\n\"",
        "server web/s1",
        "piece 0 57 \"HTTP/1.1 200 OK\\r\\nContent-Length: 10\\r\\n\\r\\nhi\"",
    ];
    let told = [
        "cut 0.1 1 web/s1#1 1 ask 0-61 sent 0-57 took 0-41 gave 0-60 close-yes client",
        "left 0.1 61-61 cut",
    ];
    assert_eq!(rt;
        records_of(alloc, NO_TIMEOUT, &links)?,
        joined(alloc, &told)?
    );
    Ok(())
}

#[test]
fn the_clients_deadline_comes_in_a_body(rt: HostRuntime) -> Result<(), Fail> {
    let alloc = rt.alloc();
    // Nothing was given.
    let links = [
        "client web 0 0",
        "piece 0 0 \"POST /a HTTP/1.1\\r\\nHost: h\\r\\nContent-Length: 5\\r\\n\\r\\nab\"",
        "server web/s1",
        "tick 100",
    ];
    let told = ["own 0.1 1 408 ask 0-50 gave 0-70", "left 0.1 50-50 own"];
    assert_eq!(rt;
        records_of(alloc, "timeout client 100", &links)?,
        joined(alloc, &told)?
    );
    // A part was given.
    let links = [
        "client web 0 0",
        "piece 0 0 \"POST /a HTTP/1.1\\r\\nHost: h\\r\\nContent-Length: 5\\r\\n\\r\\nab\"",
        "server web/s1",
        "piece 0 50 \"HTTP/1.1 200 OK\\r\\nContent-Length: 10\\r\\n\\r\\nhi\"",
        "tick 100",
    ];
    let told = [
        "cut 0.1 1 web/s1#1 1 ask 0-50 sent 0-50 took 0-41 gave 0-60 close-yes client",
        "left 0.1 50-50 cut",
    ];
    assert_eq!(rt;
        records_of(alloc, "timeout client 100", &links)?,
        joined(alloc, &told)?
    );
    Ok(())
}

#[test]
fn the_client_ends_in_a_body(rt: HostRuntime) -> Result<(), Fail> {
    let alloc = rt.alloc();
    // It ends in its body.
    let links = [
        "client web 0 0",
        "piece 0 0 \"POST /a HTTP/1.1\\r\\nHost: h\\r\\nContent-Length: 5\\r\\n\\r\\nab\"",
        "end 0 0",
        "server web/s1",
    ];
    let told = [
        "cut 0.1 1 web/s1#1 1 ask 0-50 sent 0-50 took 0-0 gave 0-0 close-no client",
        "left 0.1 50-50 cut",
    ];
    assert_eq!(rt;
        records_of(alloc, NO_TIMEOUT, &links)?,
        joined(alloc, &told)?
    );
    // It ends in its body, behind a part.
    let links = [
        "client web 0 0",
        "piece 0 0 \"POST /a HTTP/1.1\\r\\nHost: h\\r\\nContent-Length: 5\\r\\n\\r\\nab\"",
        "end 0 60",
        "server web/s1",
        "piece 0 50 \"HTTP/1.1 200 OK\\r\\nContent-Length: 10\\r\\n\\r\\nhi\"",
    ];
    let told = [
        "cut 0.1 1 web/s1#1 1 ask 0-50 sent 0-50 took 0-41 gave 0-60 close-yes client",
        "left 0.1 50-50 cut",
    ];
    assert_eq!(rt;
        records_of(alloc, NO_TIMEOUT, &links)?,
        joined(alloc, &told)?
    );
    Ok(())
}

#[test]
fn the_client_can_not_be_given_bytes(rt: HostRuntime) -> Result<(), Fail> {
    let alloc = rt.alloc();
    // The first byte can not be given.
    let links = [
        "client web 0 0",
        "fail 2",
        "piece 0 0 \"GET /a HTTP/1.1\\r\\nHost: h\\r\\n\\r\\n\"",
        "server web/s1",
        "piece 0 28 \"HTTP/1.1 200 OK\\r\\nContent-Length: 2\\r\\n\\r\\nhi\"",
    ];
    let told = [
        "cut 0.1 1 web/s1#1 1 ask 0-28 sent 0-28 took 0-40 gave 0-0 close-no client",
        "left 0.1 28-28 cut",
    ];
    assert_eq!(rt;
        records_of(alloc, NO_TIMEOUT, &links)?,
        joined(alloc, &told)?
    );
    // Ten bytes were given.
    let links = [
        "client web 0 0",
        "room 10",
        "fail 3",
        "piece 0 0 \"GET /a HTTP/1.1\\r\\nHost: h\\r\\n\\r\\n\"",
        "server web/s1",
        "piece 0 28 \"HTTP/1.1 200 OK\\r\\nContent-Length: 2\\r\\n\\r\\nhi\"",
    ];
    let told = [
        "cut 0.1 1 web/s1#1 1 ask 0-28 sent 0-28 took 0-40 gave 0-10 close-no client",
        "left 0.1 28-28 cut",
    ];
    assert_eq!(rt;
        records_of(alloc, NO_TIMEOUT, &links)?,
        joined(alloc, &told)?
    );
    Ok(())
}

#[test]
fn the_worker_stops_an_exchange(rt: HostRuntime) -> Result<(), Fail> {
    let alloc = rt.alloc();
    // Nothing was given.
    let links = [
        "client web 0 0",
        "piece 0 0 \"GET /a HTTP/1.1\\r\\nHost: h\\r\\n\\r\\n\"",
        "server web/s1",
    ];
    let told = [
        "cut 0.1 1 web/s1#1 1 ask 0-28 sent 0-28 took 0-0 gave 0-0 close-no stop",
        "left 0.1 28-28 stop",
    ];
    assert_eq!(rt;
        records_of(alloc, NO_TIMEOUT, &links)?,
        joined(alloc, &told)?
    );
    // A part was given.
    let links = [
        "client web 0 0",
        "piece 0 0 \"GET /a HTTP/1.1\\r\\nHost: h\\r\\n\\r\\n\"",
        "server web/s1",
        "piece 0 28 \"HTTP/1.1 200 OK\\r\\nContent-Length: 10\\r\\n\\r\\nhi\"",
    ];
    let told = [
        "cut 0.1 1 web/s1#1 1 ask 0-28 sent 0-28 took 0-41 gave 0-41 close-no stop",
        "left 0.1 28-28 stop",
    ];
    assert_eq!(rt;
        records_of(alloc, NO_TIMEOUT, &links)?,
        joined(alloc, &told)?
    );
    Ok(())
}

#[test]
fn the_worker_stops_outside_an_exchange(rt: HostRuntime) -> Result<(), Fail> {
    let alloc = rt.alloc();
    // Nobody asked.
    let links = ["client web 0 0"];
    let told = ["left 0.1 0-0 stop"];
    assert_eq!(rt;
        records_of(alloc, NO_TIMEOUT, &links)?,
        joined(alloc, &told)?
    );
    // A head had begun.
    let links = ["client web 0 0", "piece 0 0 \"GET\""];
    let told = ["left 0.1 0-3 stop"];
    assert_eq!(rt;
        records_of(alloc, NO_TIMEOUT, &links)?,
        joined(alloc, &told)?
    );
    Ok(())
}

#[test]
fn links_outside_an_exchange(rt: HostRuntime) -> Result<(), Fail> {
    let alloc = rt.alloc();
    // The link fails.
    let links = ["client web 0 0", "fail 1"];
    let told = ["left 0.1 0-0 fault"];
    assert_eq!(rt;
        records_of(alloc, NO_TIMEOUT, &links)?,
        joined(alloc, &told)?
    );
    // The client ends.
    let links = ["client web 0 0", "end 0 0"];
    let told = ["left 0.1 0-0 end"];
    assert_eq!(rt;
        records_of(alloc, NO_TIMEOUT, &links)?,
        joined(alloc, &told)?
    );
    Ok(())
}

#[test]
fn the_first_request_is_awaited(rt: HostRuntime) -> Result<(), Fail> {
    let alloc = rt.alloc();
    // Nothing was asked in time.
    let links = ["client web 0 0", "tick 100"];
    let told = ["left 0.1 0-0 idle"];
    assert_eq!(rt;
        records_of(alloc, "timeout client 100", &links)?,
        joined(alloc, &told)?
    );
    // The time is not over.
    let links = ["client web 0 0", "tick 99"];
    let told = ["left 0.1 0-0 stop"];
    assert_eq!(rt;
        records_of(alloc, "timeout client 100", &links)?,
        joined(alloc, &told)?
    );
    Ok(())
}

#[test]
fn the_next_request_is_awaited(rt: HostRuntime) -> Result<(), Fail> {
    let alloc = rt.alloc();
    // It does not come.
    let links = [
        "client web 0 0",
        "piece 0 0 \"GET /a HTTP/1.1\\r\\nHost: h\\r\\n\\r\\n\"",
        "server web/s1",
        "piece 0 28 \"HTTP/1.1 200 OK\\r\\nContent-Length: 2\\r\\n\\r\\nhi\"",
        "tick 50",
    ];
    let told = [
        "pass 0.1 1 web/s1#1 1 ask 0-28 sent 0-28 took 0-40 gave 0-40 keep",
        "left 0.1 28-28 idle",
    ];
    assert_eq!(rt;
        records_of(alloc, "timeout http-keep-alive 50", &links)?,
        joined(alloc, &told)?
    );
    // It may come yet.
    let links = [
        "client web 0 0",
        "piece 0 0 \"GET /a HTTP/1.1\\r\\nHost: h\\r\\n\\r\\n\"",
        "server web/s1",
        "piece 0 28 \"HTTP/1.1 200 OK\\r\\nContent-Length: 2\\r\\n\\r\\nhi\"",
        "tick 49",
    ];
    let told = [
        "pass 0.1 1 web/s1#1 1 ask 0-28 sent 0-28 took 0-40 gave 0-40 keep",
        "left 0.1 28-28 stop",
    ];
    assert_eq!(rt;
        records_of(alloc, "timeout http-keep-alive 50", &links)?,
        joined(alloc, &told)?
    );
    Ok(())
}

#[test]
fn own_answers(rt: HostRuntime) -> Result<(), Fail> {
    let alloc = rt.alloc();
    // Not a head.
    let links = ["client web 0 0", "piece 0 0 \"GET\\r\\n\\r\\n\""];
    let told = ["own 0.1 1 400 ask 0-7 gave 0-66", "left 0.1 7-7 own"];
    assert_eq!(rt;
        records_of(alloc, NO_TIMEOUT, &links)?,
        joined(alloc, &told)?
    );
    // Another coding.
    let links = [
        "client web 0 0",
        "piece 0 0 \"POST /a HTTP/1.1\\r\\nHost: h\\r\\nTransfer-Encoding: gzip\\r\\n\\r\\n\"",
    ];
    let told = ["own 0.1 1 501 ask 0-54 gave 0-70", "left 0.1 54-54 own"];
    assert_eq!(rt;
        records_of(alloc, NO_TIMEOUT, &links)?,
        joined(alloc, &told)?
    );
    // CONNECT.
    let links = [
        "client web 0 0",
        "piece 0 0 \"CONNECT h:1 HTTP/1.1\\r\\nHost: h\\r\\n\\r\\n\"",
    ];
    let told = ["own 0.1 1 501 ask 0-33 gave 0-70", "left 0.1 33-33 own"];
    assert_eq!(rt;
        records_of(alloc, NO_TIMEOUT, &links)?,
        joined(alloc, &told)?
    );
    // Another version.
    let links = ["client web 0 0", "piece 0 0 \"GET / HTTP/1.0\\r\\n\\r\\n\""];
    let told = ["own 0.1 1 505 ask 0-18 gave 0-81", "left 0.1 18-18 own"];
    assert_eq!(rt;
        records_of(alloc, NO_TIMEOUT, &links)?,
        joined(alloc, &told)?
    );
    Ok(())
}

#[test]
fn answers_that_pass_and_close(rt: HostRuntime) -> Result<(), Fail> {
    let alloc = rt.alloc();
    // A body to the end.
    let links = [
        "client web 0 0",
        "piece 0 0 \"GET /a HTTP/1.1\\r\\nHost: h\\r\\n\\r\\n\"",
        "server web/s1",
        "piece 0 28 \"HTTP/1.1 200 OK\\r\\n\\r\\nhi\"",
        "end 0 28",
    ];
    let told = [
        "pass 0.1 1 web/s1#1 1 ask 0-28 sent 0-28 took 0-21 gave 0-40 close",
        "left 0.1 28-28 closing",
    ];
    assert_eq!(rt;
        records_of(alloc, NO_TIMEOUT, &links)?,
        joined(alloc, &told)?
    );
    // Early.
    let links = [
        "client web 0 0",
        "piece 0 0 \"POST /a HTTP/1.1\\r\\nHost: h\\r\\nContent-Length: 5\\r\\n\\r\\nab\"",
        "server web/s1",
        "piece 0 50 \"HTTP/1.1 200 OK\\r\\nContent-Length: 2\\r\\n\\r\\nhi\"",
    ];
    let told = [
        "cut 0.1 1 web/s1#1 1 ask 0-50 sent 0-50 took 0-40 gave 0-59 close-yes early",
        "left 0.1 50-50 cut",
    ];
    assert_eq!(rt;
        records_of(alloc, NO_TIMEOUT, &links)?,
        joined(alloc, &told)?
    );
    Ok(())
}
