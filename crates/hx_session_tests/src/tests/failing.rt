//! The client's link, or the connection's, fails at each call in turn while two requests pass.

use crate::tests::bench::Broken;
use crate::tests::play::{joined, play};
use hx_base::NoMemory;
use std::alloc::Global;
use std::test::Fail;

const FIRST: &str = "pass 0.1 1 web/s1#1 1 ask 0-28 sent 0-28 took 0-40 gave 0-40 keep";

const SECOND: &str = "pass 0.1 2 web/s1#1 2 ask 28-56 sent 28-56 took 40-80 gave 40-80 keep";

/// A line in place of a limit that tells.
const NO_LIMIT: &str = "room 100";

/// The script of two requests at once, with a line of the client's and one of the connection's.
fn failing(alloc: Global, client: &str, server: &str) -> Result<String, NoMemory> {
    joined(
        alloc,
        &[
            "hx-script 1",
            "config 4",
            "listen web",
            "  bind :8080",
            "  http-reuse always",
            "  server s1 127.0.0.1:9001",
            "client web 0 0",
            client,
            "piece 0 0 \"GET /a HTTP/1.1\\r\\nHost: h\\r\\n\\r\\nGET /a HTTP/1.1\\r\\nHost: h\\r\\n\\r\\n\"",
            "end 0 80",
            "server web/s1",
            server,
            "piece 0 28 \"HTTP/1.1 200 OK\\r\\nContent-Length: 2\\r\\n\\r\\nhi\"",
            "piece 0 56 \"HTTP/1.1 200 OK\\r\\nContent-Length: 2\\r\\n\\r\\nhi\"",
        ],
    )
}

/// The records where the client's link fails at that call.
fn told_at(alloc: Global, call: usize) -> Result<String, Broken> {
    let Ok(line) = format!(in alloc; "fail {call}") else {
        return Err("no memory for the line");
    };
    let Ok(text) = failing(alloc, line.as_str(), NO_LIMIT) else {
        return Err("no memory for the script");
    };
    Ok(play(alloc, text.as_str())?.records)
}

/// The records where the connection's link fails at that call.
fn told_behind(alloc: Global, call: usize) -> Result<String, Broken> {
    let Ok(line) = format!(in alloc; "fail {call}") else {
        return Err("no memory for the line");
    };
    let Ok(text) = failing(alloc, NO_LIMIT, line.as_str()) else {
        return Err("no memory for the script");
    };
    Ok(play(alloc, text.as_str())?.records)
}

/// Bytes that wait are given before anything more is read: so its calls are a read, two writes an answer, and a read.
#[test]
fn the_clients_link_fails_in_the_first_request(rt: HostRuntime) -> Result<(), Fail> {
    let alloc = rt.alloc();
    let told: [&[&str]; 3] = [
        // The first read.
        &["left 0.1 0-0 fault"],
        // The first head is given.
        &[
            "cut 0.1 1 web/s1#1 1 ask 0-28 sent 0-28 took 0-40 gave 0-0 close-no client",
            "left 0.1 28-56 cut",
        ],
        // Its body is given.
        &[
            "cut 0.1 1 web/s1#1 1 ask 0-28 sent 0-28 took 0-40 gave 0-38 close-no client",
            "left 0.1 28-56 cut",
        ],
    ];
    for (at, lines) in told.iter().enumerate() {
        let call = at.saturating_add(1);
        assert_eq!(rt; told_at(alloc, call)?, joined(alloc, lines)?, "at {call}");
    }
    Ok(())
}

#[test]
fn the_clients_link_fails_behind_the_first_request(rt: HostRuntime) -> Result<(), Fail> {
    let alloc = rt.alloc();
    let told: [&[&str]; 4] = [
        // The second head is given.
        &[
            FIRST,
            "cut 0.1 2 web/s1#1 2 ask 28-56 sent 28-56 took 40-80 gave 40-40 close-no client",
            "left 0.1 56-56 cut",
        ],
        // Its body is given.
        &[
            FIRST,
            "cut 0.1 2 web/s1#1 2 ask 28-56 sent 28-56 took 40-80 gave 40-78 close-no client",
            "left 0.1 56-56 cut",
        ],
        // The read behind both.
        &[FIRST, SECOND, "left 0.1 56-56 fault"],
        // There is no further call.
        &[FIRST, SECOND, "left 0.1 56-56 end"],
    ];
    for (at, lines) in told.iter().enumerate() {
        let call = at.saturating_add(4);
        assert_eq!(rt; told_at(alloc, call)?, joined(alloc, lines)?, "at {call}");
    }
    Ok(())
}

/// A connection that rested is probed before its next request: so its calls are a write, a read, a probe, a write, a read.
#[test]
fn the_connections_link_fails_at_each_call(rt: HostRuntime) -> Result<(), Fail> {
    let alloc = rt.alloc();
    let told: [&[&str]; 6] = [
        // The first request is sent.
        &["own 0.1 1 502 ask 0-56 gave 0-66", "left 0.1 56-56 own"],
        // Its answer is read.
        &["own 0.1 1 502 ask 0-56 gave 0-66", "left 0.1 56-56 own"],
        // The probe before the second: it is closed, and no other can be had.
        &[
            FIRST,
            "own 0.1 2 503 ask 28-56 gave 40-114",
            "left 0.1 56-56 own",
        ],
        // The second request is sent.
        &[
            FIRST,
            "cut 0.1 2 web/s1#1 2 ask 28-56 sent 28-28 took 40-40 gave 40-40 close-no silent",
            "left 0.1 56-56 cut",
        ],
        // Its answer is read.
        &[
            FIRST,
            "cut 0.1 2 web/s1#1 2 ask 28-56 sent 28-56 took 40-40 gave 40-40 close-no silent",
            "left 0.1 56-56 cut",
        ],
        // It rests when it fails.
        &[FIRST, SECOND, "left 0.1 56-56 end"],
    ];
    for (at, lines) in told.iter().enumerate() {
        let call = at.saturating_add(1);
        assert_eq!(rt;
            told_behind(alloc, call)?,
            joined(alloc, lines)?,
            "at {call}"
        );
    }
    Ok(())
}
