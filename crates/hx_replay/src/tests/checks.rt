//! Transcripts are checked, those of replays among them.

use super::{NEVER, SCRIPT, TRANSCRIPT, run, run_bytes};
use std::alloc::Global;
use std::test::Fail;

/// The transcript with its only such text replaced.
fn with(alloc: Global, old: &str, new: &str) -> Result<String, Fail> {
    let mut text = String::new(alloc);
    match TRANSCRIPT.split_once(old) {
        Some((front, back)) => {
            text.push_str(front)?;
            text.push_str(new)?;
            text.push_str(back)?;
        }
        None => return Err("no such text")?,
    }
    Ok(text)
}

#[test]
fn a_check_says_that_a_transcript_holds(rt: HostRuntime) -> Result<(), Fail> {
    let ran = run(&rt, "check", TRANSCRIPT, NEVER)?;
    assert_eq!(rt; ran.status, 0);
    assert_eq!(rt; ran.text.as_slice(), "holds\n".as_bytes());
    Ok(())
}

#[test]
fn a_check_tells_what_is_wrong(rt: HostRuntime) -> Result<(), Fail> {
    for (old, new, status, told) in [
        // Nothing rests at the place of the take.
        (
            "take 0.0 1 0:0 1 later",
            "take 0.0 1 0:1 1 later",
            7,
            "broken 1 6\n",
        ),
        // Under never nothing is parked.
        ("s1 always -1", "s1 never -1", 7, "broken 2 4\n"),
        // No connection may rest.
        ("s1 always -1", "s1 always 0", 7, "broken 3 4\n"),
        // The request isn't whole.
        ("ask 0-28 sent", "ask 0-27 sent", 7, "broken 4 9\n"),
        // A byte stands in two ranges.
        (
            "left 0.1 28-28 end",
            "left 0.1 27-28 end",
            7,
            "broken 5 10\n",
        ),
        // One connection was opened.
        (
            "web/s1 open 1 park",
            "web/s1 open 2 park",
            7,
            "broken 6 17\n",
        ),
        // The last line is missing.
        ("close 1\nend\n", "close 1\n", 5, "transcript 17 5\n"),
        // Another version.
        ("transcript 1", "transcript 2", 5, "transcript 1 1\n"),
        // No number.
        ("park 0.1 1", "park 0.1 x", 5, "transcript 4 3\n"),
    ] {
        let text = with(rt.alloc(), old, new)?;
        let ran = run(&rt, "check", text.as_str(), NEVER)?;
        assert_eq!(rt; ran.status, status, "{new}");
        assert_eq!(rt; ran.text.as_slice(), told.as_bytes(), "{new}");
    }
    Ok(())
}

/// Two clients of one server: two requests at once, and a later one that takes what rests.
const TWO_CLIENTS: &str = "hx-script 1
config 4
listen web
  bind :8080
  http-reuse safe
  server s1 127.0.0.1:9001
client web 0 0
piece 0 0 \"GET /a HTTP/1.1\\r\\nHost: h\\r\\n\\r\\nGET /b HTTP/1.1\\r\\nHost: h\\r\\n\\r\\n\"
end 0 80
client web 0 5
piece 5 0 \"GET /c HTTP/1.1\\r\\nHost: h\\r\\n\\r\\n\"
end 5 40
server web/s1
piece 0 28 \"HTTP/1.1 200 OK\\r\\nContent-Length: 2\\r\\n\\r\\nhi\"
piece 0 56 \"HTTP/1.1 200 OK\\r\\nContent-Length: 2\\r\\n\\r\\nho\"
piece 0 84 \"HTTP/1.1 200 OK\\r\\nContent-Length: 2\\r\\n\\r\\nha\"
drain 9 web/s1
";

/// A request that the proxy refuses, a dial that fails, and an answer that ends in its middle.
const TROUBLES: &str = "hx-script 1
config 5
listen web
  bind :8080
  http-reuse always
  server s1 127.0.0.1:9001
  server s2 127.0.0.1:9002
client web 0 0
piece 0 0 \"no request\\r\\n\\r\\n\"
client web 0 1
piece 1 0 \"GET /a HTTP/1.1\\r\\nHost: h\\r\\n\\r\\n\"
client web 0 2
piece 2 0 \"GET /b HTTP/1.1\\r\\nHost: h\\r\\n\\r\\n\"
server web/s1 refuse
server web/s2
piece 2 28 \"HTTP/1.1 200 OK\\r\\nContent-Length: 9\\r\\n\\r\\nhi\"
end 3 28
tick 4
";

#[test]
fn what_a_replay_prints_holds(rt: HostRuntime) -> Result<(), Fail> {
    for script in [SCRIPT, TWO_CLIENTS, TROUBLES] {
        let ran = run(&rt, "replay", script, NEVER)?;
        assert_eq!(rt; ran.status, 0);
        let checked = run_bytes(&rt, "check", ran.text.as_slice(), NEVER)?;
        assert_eq!(rt; checked.status, 0);
        assert_eq!(rt; checked.text.as_slice(), "holds\n".as_bytes());
    }
    Ok(())
}
