//! Whole runs over a source and a sink in memory.
ghost use Rattle.std.specs.Prelude.{◌≡◌, IfOk};

mod checks;
mod configs;
mod framings;
mod modes;
mod replays;

use crate::replay_main;
use hx_link::{MemorySink, MemorySource, Reading, Writing};
use std::alloc::Global;
use std::io::{self, Read, Write};
use std::test::Fail;

const SCRIPT: &str = "hx-script 1
config 4
listen web
  bind :8080
  http-reuse always
  server s1 127.0.0.1:9001
client web 0 0
piece 0 0 \"GET /a HTTP/1.1\\r\\nHost: h\\r\\n\\r\\n\"
end 0 40
server web/s1
piece 0 28 \"HTTP/1.1 200 OK\\r\\nContent-Length: 2\\r\\n\\r\\nhi\"
";

const TRANSCRIPT: &str = "hx-transcript 1
server web/s1 always -1 0 5000
open 0.1 1
park 0.1 1 0:0 1
gate 0 drain
take 0.0 1 0:0 1 later
close 0.0 1
records
pass 0.1 1 web/s1#1 1 ask 0-28 sent 0-28 took 0-40 gave 0-40 keep
left 0.1 28-28 end
links
client 0.1 took \"GET /a HTTP/1.1\\r\\nHost: h\\r\\n\\r\\n\"
client 0.1 gave \"HTTP/1.1 200 OK\\r\\nContent-Length: 2\\r\\n\\r\\nhi\"
conn web/s1#1 sent \"GET /a HTTP/1.1\\r\\nHost: h\\r\\n\\r\\n\"
conn web/s1#1 took \"HTTP/1.1 200 OK\\r\\nContent-Length: 2\\r\\n\\r\\nhi\"
totals
web/s1 open 1 park 1 take 0 over 0 care 1 close 1
end
";

const USAGE: &str = "usage: hx_replay replay | check | drill <start> <threads> <sessions>\n";

/// The most bytes that the sink takes.
const ROOM: usize = 2_000_000;

/// The status of a run, and what the sink took.
#[derive(Drop)]
struct Outcome {
    status: u8,
    text: Vec<u8>,
}

/// The call of the source and the one of the sink that fail, from 1; 0 for none.
#[derive(Clone, Copy)]
struct Fails {
    read: u64,
    write: u64,
}

const NEVER: Fails = Fails { read: 0, write: 0 };

fn one(alloc: Global, n: u64) -> Result<Vec<u64>, Fail> {
    let mut all = Vec::new(alloc);
    all.push(n)?;
    Ok(all)
}

/// Runs the program with these words, parted by single spaces.
fn run(rt: &HostRuntime, words: &str, script: &str, fails: Fails) -> Result<Outcome, Fail> {
    run_bytes(rt, words, script.as_bytes(), fails)
}

/// The same over any bytes.
fn run_bytes(rt: &HostRuntime, words: &str, bytes: &[u8], fails: Fails) -> Result<Outcome, Fail> {
    let alloc = rt.alloc();
    let mut all = Vec::new(alloc);
    for word in words.split(' ') {
        all.push(word.to_string(alloc)?)?;
    }
    let mut source = MemorySource::new(bytes.to_vec(alloc)?, one(alloc, fails.read)?);
    let mut sink = MemorySink::new(alloc, ROOM, one(alloc, fails.write)?)?;
    let status = replay_main(rt, alloc, all.as_slice(), &mut source, &mut sink);
    Ok(Outcome {
        status,
        text: sink.taken().to_vec(alloc)?,
    })
}

#[test]
fn a_first_get_prints_its_transcript(rt: HostRuntime) -> Result<(), Fail> {
    let ran = run(&rt, "replay", SCRIPT, NEVER)?;
    assert_eq!(rt; ran.status, 0);
    assert_eq!(rt; ran.text.as_slice(), TRANSCRIPT.as_bytes());
    Ok(())
}

#[test]
fn words_that_are_no_command_get_the_usage_line(rt: HostRuntime) -> Result<(), Fail> {
    for words in [
        "",
        "replay now",
        "Replay",
        "check it",
        "drill 7 4",
        "drill 7 0 10",
        "drill 7 17 10",
        "drill 7 4 0",
        "drill 7 4 100001",
        "drill 1000001 4 10",
        "drill 07 4 10",
        "drill +7 4 10",
        "drill 7 4 x",
        "drill 7 4 99999999999999999999999",
    ] {
        let ran = run(&rt, words, SCRIPT, NEVER)?;
        assert_eq!(rt; ran.status, 1);
        assert_eq!(rt; ran.text.as_slice(), USAGE.as_bytes());
    }
    Ok(())
}

#[test]
fn what_is_not_built_is_told(rt: HostRuntime) -> Result<(), Fail> {
    for (words, script) in [
        ("drill 7 4 10", ""),
        ("drill 0 1 1", ""),
        ("drill 1000000 16 100000", ""),
    ] {
        let ran = run(&rt, words, script, NEVER)?;
        assert_eq!(rt; ran.status, 8);
        assert_eq!(rt; ran.text.as_slice(), "unbuilt\n".as_bytes());
    }
    Ok(())
}

#[test]
fn a_text_that_is_no_script_has_its_first_fault(rt: HostRuntime) -> Result<(), Fail> {
    for script in ["", "hx-script 2\n"] {
        let ran = run(&rt, "replay", script, NEVER)?;
        assert_eq!(rt; ran.status, 5);
        assert_eq!(rt; ran.text.as_slice(), "script 1 1\n".as_bytes());
    }
    Ok(())
}

#[test]
fn a_failing_source_or_sink_has_its_own_status(rt: HostRuntime) -> Result<(), Fail> {
    for (fails, status) in [
        (Fails { read: 1, write: 0 }, 2),
        (Fails { read: 2, write: 0 }, 2),
        (Fails { read: 1, write: 1 }, 2),
        (Fails { read: 0, write: 1 }, 3),
    ] {
        let ran = run(&rt, "replay", SCRIPT, fails)?;
        assert_eq!(rt; ran.status, status);
        assert!(rt; ran.text.is_empty());
    }
    Ok(())
}

/// A script of this request, this answer and these numbers.
fn script_of(
    alloc: Global,
    ask: &str,
    gave: &str,
    sent: &str,
    answer: &str,
) -> Result<String, Fail> {
    let mut text = String::new(alloc);
    for part in [
        "hx-script 1\nconfig 4\nlisten web\n  bind :8080\n  http-reuse always\n",
        "  server s1 127.0.0.1:9001\nclient web 0 0\npiece 0 0 \"",
        ask,
        "\"\nend 0 ",
        gave,
        "\nserver web/s1\npiece 0 ",
        sent,
        " \"",
        answer,
        "\"\n",
    ] {
        text.push_str(part)?;
    }
    Ok(text)
}

const ASK: &str = "GET /a HTTP/1.1\\r\\nHost: h\\r\\n\\r\\n";

const ANSWER: &str = "HTTP/1.1 200 OK\\r\\nContent-Length: 2\\r\\n\\r\\nhi";

/// A request, the length of what is given for its answer, that of what is sent for it, the answer, and the status.
type Messages = (&'static str, &'static str, &'static str, &'static str, u8);

const MESSAGES: [Messages; 17] = [
    (ASK, "40", "28", ANSWER, 0),
    // Another host and another field.
    (
        "GET / HTTP/1.1\\r\\nHost: x.org\\r\\nA: b\\r\\n\\r\\n",
        "40",
        "37",
        ANSWER,
        0,
    ),
    // Lengths of no byte, of one, and of seven and eight digits.
    (
        ASK,
        "38",
        "28",
        "HTTP/1.1 200 OK\\r\\nContent-Length: 0\\r\\n\\r\\n",
        0,
    ),
    (
        ASK,
        "39",
        "28",
        "HTTP/1.1 200 OK\\r\\nContent-Length: 1\\r\\n\\r\\nh",
        0,
    ),
    (
        ASK,
        "46",
        "28",
        "HTTP/1.1 200 OK\\r\\nContent-Length: 0000002\\r\\n\\r\\nhi",
        0,
    ),
    (
        ASK,
        "47",
        "28",
        "HTTP/1.1 200 OK\\r\\nContent-Length: 00000002\\r\\n\\r\\nhi",
        0,
    ),
    // Another method, no host, two hosts, a body, a field of one connection.
    (
        "PUT /a HTTP/1.1\\r\\nHost: h\\r\\n\\r\\n",
        "40",
        "28",
        ANSWER,
        0,
    ),
    ("GET /a HTTP/1.1\\r\\n\\r\\n", "40", "19", ANSWER, 0),
    (
        "GET /a HTTP/1.1\\r\\nHost: h\\r\\nHost: h\\r\\n\\r\\n",
        "40",
        "37",
        ANSWER,
        0,
    ),
    (
        "GET /a HTTP/1.1\\r\\nHost: h\\r\\nContent-Length: 1\\r\\n\\r\\nx",
        "40",
        "48",
        ANSWER,
        0,
    ),
    (
        "GET /a HTTP/1.1\\r\\nHost: h\\r\\nConnection: close\\r\\n\\r\\n",
        "59",
        "28",
        ANSWER,
        0,
    ),
    // Other numbers.
    (ASK, "41", "28", ANSWER, 0),
    (ASK, "40", "27", ANSWER, 0),
    (ASK, "040", "28", ANSWER, 5),
    // Another status, a longer body, no length.
    (
        ASK,
        "47",
        "28",
        "HTTP/1.1 404 Not Found\\r\\nContent-Length: 2\\r\\n\\r\\nhi",
        0,
    ),
    (
        ASK,
        "41",
        "28",
        "HTTP/1.1 200 OK\\r\\nContent-Length: 2\\r\\n\\r\\nhi!",
        0,
    ),
    (ASK, "21", "28", "HTTP/1.1 200 OK\\r\\n\\r\\nhi", 0),
];

#[test]
fn other_messages_are_replayed_too(rt: HostRuntime) -> Result<(), Fail> {
    for (ask, gave, sent, answer, status) in MESSAGES {
        let script = script_of(rt.alloc(), ask, gave, sent, answer)?;
        let ran = run(&rt, "replay", script.as_str(), NEVER)?;
        assert_eq!(rt; (answer, ran.status), (answer, status));
    }
    Ok(())
}

/// Gives one byte a read.
#[derive(Drop)]
struct OneByteReader<'a> {
    left: &'a [u8],
}

impl Read for OneByteReader<'_> {
    fn read(&mut self, buf: &mut [u8]) -> io::Result<usize> {
        if buf.is_empty() || self.left.is_empty() {
            return Ok(0);
        }
        buf[0] = self.left[0];
        self.left = &self.left[1..];
        Ok(1)
    }
}

/// Takes one byte a write, up to the write that fails.
#[derive(Drop)]
struct OneByteWriter {
    taken: Vec<u8>,
    last: usize,
}

impl Write for OneByteWriter {
    fn write(&mut self, buf: &[u8]) -> io::Result<usize> {
        if buf.is_empty() {
            return Ok(0);
        }
        if self.taken.len() == self.last {
            return Err(io::Error::from(io::ErrorKind::Other));
        }
        self.taken.push(buf[0])?;
        Ok(1)
    }

    fn flush(&mut self) -> io::Result<()> {
        Ok(())
    }
}

#[test]
fn one_byte_a_read_and_one_a_write_give_the_same(rt: HostRuntime) -> Result<(), Fail> {
    let alloc = rt.alloc();
    for (last, status, taken) in [(4096, 0, TRANSCRIPT), (1, 3, "h"), (0, 3, "")] {
        let mut words = Vec::new(alloc);
        words.push("replay".to_string(alloc)?)?;
        let mut source = Reading::new(OneByteReader {
            left: SCRIPT.as_bytes(),
        });
        let mut writer = OneByteWriter {
            taken: Vec::new(alloc),
            last,
        };
        let mut sink = Writing::new(&mut writer);
        assert_eq!(rt;
            replay_main(&rt, alloc, words.as_slice(), &mut source, &mut sink),
            status
        );
        assert_eq!(rt; writer.taken.as_slice(), taken.as_bytes());
    }
    Ok(())
}
