//! The four modes and the limits.
ghost use Rattle.std.specs.Prelude.{◌≡◌, IfOk};

use super::{NEVER, run};
use std::alloc::Global;
use std::test::Fail;

/// What stands behind the configuration.
const EXCHANGE: &str = "client web 0 0
piece 0 0 \"GET /a HTTP/1.1\\r\\nHost: h\\r\\n\\r\\n\"
end 0 40
server web/s1
piece 0 28 \"HTTP/1.1 200 OK\\r\\nContent-Length: 2\\r\\n\\r\\nhi\"
";

/// The marks and the totals of a connection that rests, and of one that doesn't.
const RESTS: (&str, &str) = (
    "open 0.1 1\npark 0.1 1 0:0 1\ngate 0 drain\ntake 0.0 1 0:0 1 later\nclose 0.0 1\n",
    "web/s1 open 1 park 1 take 0 over 0 care 1 close 1\n",
);

const LEAVES: (&str, &str) = (
    "open 0.1 1\nclose 0.1 1\ngate 0 drain\n",
    "web/s1 open 1 park 0 take 0 over 0 care 0 close 1\n",
);

const RECORDS: &str = "records
pass 0.1 1 web/s1#1 1 ask 0-28 sent 0-28 took 0-40 gave 0-40 keep
left 0.1 28-28 end
links
client 0.1 took \"GET /a HTTP/1.1\\r\\nHost: h\\r\\n\\r\\n\"
client 0.1 gave \"HTTP/1.1 200 OK\\r\\nContent-Length: 2\\r\\n\\r\\nhi\"
conn web/s1#1 sent \"GET /a HTTP/1.1\\r\\nHost: h\\r\\n\\r\\n\"
conn web/s1#1 took \"HTTP/1.1 200 OK\\r\\nContent-Length: 2\\r\\n\\r\\nhi\"
totals
";

fn joined(alloc: Global, parts: &[&str]) -> Result<String, Fail> {
    let mut text = String::new(alloc);
    for part in parts {
        text.push_str(part)?;
    }
    Ok(text)
}

/// A script whose server has this mode, greatest number and delay.
fn script_of(alloc: Global, mode: &str, max: &str, delay: &str) -> Result<String, Fail> {
    joined(
        alloc,
        &[
            "hx-script 1\nconfig 4\nlisten web\n  bind :8080\n  http-reuse ",
            mode,
            "\n  server s1 127.0.0.1:9001 pool-max-conn ",
            max,
            " pool-purge-delay ",
            delay,
            "\n",
            EXCHANGE,
        ],
    )
}

/// Its transcript, with the line of these rules, marks and totals.
fn transcript_of(alloc: Global, rules: &str, told: (&str, &str)) -> Result<String, Fail> {
    joined(
        alloc,
        &[
            "hx-transcript 1\nserver web/s1 ",
            rules,
            "\n",
            told.0,
            RECORDS,
            told.1,
            "end\n",
        ],
    )
}

#[test]
fn each_mode_and_limit_has_its_marks(rt: HostRuntime) -> Result<(), Fail> {
    for (mode, max, delay, rules, told) in [
        ("never", "-1", "0", "never -1 0 0", LEAVES),
        ("never", "-1", "5s", "never -1 0 5000", LEAVES),
        ("never", "0", "0", "never 0 0 0", LEAVES),
        ("never", "0", "5s", "never 0 0 5000", LEAVES),
        ("never", "1", "0", "never 1 0 0", LEAVES),
        ("never", "1", "5s", "never 1 0 5000", LEAVES),
        ("safe", "-1", "0", "safe -1 0 0", LEAVES),
        ("safe", "-1", "5s", "safe -1 0 5000", RESTS),
        ("safe", "0", "0", "safe 0 0 0", LEAVES),
        ("safe", "0", "5s", "safe 0 0 5000", LEAVES),
        ("safe", "1", "0", "safe 1 0 0", LEAVES),
        ("safe", "1", "5s", "safe 1 0 5000", RESTS),
        ("aggressive", "-1", "0", "aggressive -1 0 0", LEAVES),
        ("aggressive", "-1", "5s", "aggressive -1 0 5000", RESTS),
        ("aggressive", "0", "0", "aggressive 0 0 0", LEAVES),
        ("aggressive", "0", "5s", "aggressive 0 0 5000", LEAVES),
        ("aggressive", "1", "0", "aggressive 1 0 0", LEAVES),
        ("aggressive", "1", "5s", "aggressive 1 0 5000", RESTS),
        ("always", "-1", "0", "always -1 0 0", LEAVES),
        ("always", "-1", "5s", "always -1 0 5000", RESTS),
        ("always", "0", "0", "always 0 0 0", LEAVES),
        ("always", "0", "5s", "always 0 0 5000", LEAVES),
        ("always", "1", "0", "always 1 0 0", LEAVES),
        ("always", "1", "5s", "always 1 0 5000", RESTS),
    ] {
        let script = script_of(rt.alloc(), mode, max, delay)?;
        let ran = run(&rt, "replay", script.as_str(), NEVER)?;
        let expected = transcript_of(rt.alloc(), rules, told)?;
        assert_eq!(rt; (rules, ran.status), (rules, 0));
        assert_eq!(rt; ran.text.as_slice(), expected.as_bytes());
    }
    Ok(())
}

const FRONT_AND_BACK: &str = "hx-script 1
config 7
defaults # and a comment
\thttp-reuse always
frontend www
\tbind *:80
\tdefault_backend app
backend app
\tserver a.1 10.0.0.1:80 pool-low-conn 2
client www 0 0
piece 0 0 \"GET / HTTP/1.1\\r\\nHost: h\\r\\n\\r\\n\"
end 0 38
server app/a.1
piece 0 27 \"HTTP/1.1 200 OK\\r\\nContent-Length: 0\\r\\n\\r\\n\"";

const BACK_TRANSCRIPT: &str = "hx-transcript 1
server app/a.1 always -1 2 5000
open 0.1 1
park 0.1 1 0:0 1
gate 0 drain
take 0.0 1 0:0 1 later
close 0.0 1
records
pass 0.1 1 app/a.1#1 1 ask 0-27 sent 0-27 took 0-38 gave 0-38 keep
left 0.1 27-27 end
links
client 0.1 took \"GET / HTTP/1.1\\r\\nHost: h\\r\\n\\r\\n\"
client 0.1 gave \"HTTP/1.1 200 OK\\r\\nContent-Length: 0\\r\\n\\r\\n\"
conn app/a.1#1 sent \"GET / HTTP/1.1\\r\\nHost: h\\r\\n\\r\\n\"
conn app/a.1#1 took \"HTTP/1.1 200 OK\\r\\nContent-Length: 0\\r\\n\\r\\n\"
totals
app/a.1 open 1 park 1 take 0 over 0 care 1 close 1
end
";

#[test]
fn a_frontend_and_a_backend_do_as_a_listen_section_does(rt: HostRuntime) -> Result<(), Fail> {
    let ran = run(&rt, "replay", FRONT_AND_BACK, NEVER)?;
    assert_eq!(rt; ran.status, 0);
    assert_eq!(rt; ran.text.as_slice(), BACK_TRANSCRIPT.as_bytes());
    Ok(())
}
