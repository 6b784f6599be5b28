//! Texts of transcripts: what is wrong in one place is told by its line and rule, and a long one holds.

use hx_check_text::{Checked, check_text};
use std::alloc::Global;
use std::process::Abort;
use std::test::Fail;

/// One request and its answer.
pub(crate) const TEXT: &str = "hx-transcript 1
server web/s1 always -1 0 5000
open 0.1 1
park 0.1 1 0:0 1
gate 0 drain
take 0.0 1 0:0 1 later
close 0.0 1
records
pass 0.1 1 web/s1#1 1 ask 0-28 sent 0-28 took 0-40 gave 0-40 keep
left 0.1 28-28 end
links
client 0.1 took \"GET /a HTTP/1.1\\r\\nHost: h\\r\\n\\r\\n\"
client 0.1 gave \"HTTP/1.1 200 OK\\r\\nContent-Length: 2\\r\\n\\r\\nhi\"
conn web/s1#1 sent \"GET /a HTTP/1.1\\r\\nHost: h\\r\\n\\r\\n\"
conn web/s1#1 took \"HTTP/1.1 200 OK\\r\\nContent-Length: 2\\r\\n\\r\\nhi\"
totals
web/s1 open 1 park 1 take 0 over 0 care 1 close 1
end
";

/// The text with the first such part replaced.
pub(crate) fn with(alloc: Global, whole: &str, old: &str, new: &str) -> Result<String, Fail> {
    let mut text = String::new(alloc);
    match whole.split_once(old) {
        Some((front, back)) => {
            text.push_str(front)?;
            text.push_str(new)?;
            text.push_str(back)?;
        }
        None => return Err("no such part")?,
    }
    Ok(text)
}

/// With its first such part replaced, the text is refused at this line by this rule.
fn show(rt: &impl Abort, alloc: Global, rule: u8, cases: &[(&str, &str, u32)]) -> Result<(), Fail> {
    for (old, new, line) in cases {
        let text = with(alloc, TEXT, old, new)?;
        let found = check_text(alloc, text.as_bytes())?;
        assert_eq!(rt; found, Checked::Fault { line: *line, rule }, "{new}");
    }
    Ok(())
}

#[test]
fn a_text_that_spells_a_transcript_is_read(rt: HostRuntime) -> Result<(), Fail> {
    assert_eq!(rt; check_text(rt.alloc(), TEXT.as_bytes())?, Checked::Holds);
    Ok(())
}

#[test]
fn another_first_line_is_refused(rt: HostRuntime) -> Result<(), Fail> {
    let cases = [
        ("hx-transcript 1", "hx-transcript 2", 1),
        ("hx-transcript 1", "hx-transcript 1 ", 1),
        ("hx-transcript 1\n", "", 1),
    ];
    show(&rt, rt.alloc(), 1, &cases)
}

#[test]
fn a_line_of_no_form_is_refused(rt: HostRuntime) -> Result<(), Fail> {
    let cases = [
        // An unknown word, an empty line, a byte in front of a line's end, a last line without its end.
        ("records\n", "record\n", 8),
        ("gate 0 drain", "gate 0 shut", 5),
        ("records\n", "\nrecords\n", 8),
        ("records\n", "records\r\n", 8),
        ("1\nend\n", "1\nend", 18),
        // A word too few, one too many, an empty one.
        ("gate 0 drain", "gate 0", 5),
        ("close 0.0 1\n", "close 0.0 1 1\n", 7),
        ("open 0.1 1", "open  0.1 1", 3),
        ("h\\r\\n\\r\\n\"", "h\\r\\n\\r\\n\" x", 12),
        // A name with another byte.
        ("server web/s1", "server w*b/s1", 2),
        // The caretaker's take is no first one.
        ("0:0 1 later", "0:0 1 first", 6),
    ];
    show(&rt, rt.alloc(), 2, &cases)
}

#[test]
fn a_word_without_its_mark_is_refused(rt: HostRuntime) -> Result<(), Fail> {
    let cases = [
        ("open 0.1 1", "open 01 1", 3),
        ("park 0.1 1 0:0", "park 0.1 1 0-0", 4),
        ("ask 0-28", "ask 0:28", 9),
        ("web/s1#1 1 ask", "web/s1 1 ask", 9),
        ("left 0.1 28-28", "left 0.1 28", 10),
    ];
    show(&rt, rt.alloc(), 2, &cases)
}

#[test]
fn an_early_cut_closes(rt: HostRuntime) -> Result<(), Fail> {
    let cut = "cut 0.1 1 web/s1#1 1 ask 0-28 sent 0-28 took 0-40 gave 0-40 close-no early";
    let pass = "pass 0.1 1 web/s1#1 1 ask 0-28 sent 0-28 took 0-40 gave 0-40 keep";
    show(&rt, rt.alloc(), 2, &[(pass, cut, 9)])
}

#[test]
fn what_is_no_number_is_refused(rt: HostRuntime) -> Result<(), Fail> {
    let cases = [
        // No number, an empty one, a zero or a sign in front.
        ("park 0.1 1", "park 0.1 x", 4),
        ("open 0.1 1", "open 0.1 ", 3),
        ("open 0.1 1", "open 0.01 1", 3),
        ("open 0.1 1", "open 0.1 +1", 3),
        ("always -1", "always -2", 2),
        // One past its type.
        ("open 0.1 1", "open 256.1 1", 3),
        ("open 0.1 1", "open 0.4294967296 1", 3),
        ("open 0.1 1", "open 0.1 18446744073709551616", 3),
        ("park 0.1 1 0:0 1", "park 0.1 1 0:256 1", 4),
        ("park 0.1 1 0:0 1", "park 0.1 1 0:0 65536", 4),
        ("always -1", "always 4294967296", 2),
        ("web/s1#1 1 ask", "web/s1#1 4294967296 ask", 9),
    ];
    show(&rt, rt.alloc(), 3, &cases)
}

#[test]
fn what_is_no_byte_text_is_refused(rt: HostRuntime) -> Result<(), Fail> {
    let cases = [
        // Without a quote, with a letter behind it.
        ("client 0.1 took \"GET", "client 0.1 took GET", 12),
        ("nhi\"\nconn", "nhi\nconn", 13),
        ("h\\r\\n\\r\\n\"", "h\\r\\n\\r\\n\"x", 12),
        // In another spelling.
        ("client 0.1 took \"GET", "client 0.1 took \"\\x47ET", 12),
        ("h\\r\\n\\r\\n\"", "h\\x0d\\n\\r\\n\"", 12),
        ("nhi\"\nconn", "nhi\\xFF\"\nconn", 13),
    ];
    show(&rt, rt.alloc(), 4, &cases)
}

#[test]
fn a_line_that_does_not_stand_there_is_refused(rt: HostRuntime) -> Result<(), Fail> {
    let again = "client 0.1 took \"\"\nclient 0.1 gave \"\"\nconn web/s1#1 sent";
    let cases = [
        // A line is left out.
        ("server web/s1 always -1 0 5000\n", "", 2),
        ("close 0.0 1\nrecords\n", "close 0.0 1\n", 8),
        ("links\n", "", 11),
        ("\ntotals\n", "\n", 16),
        (
            "web/s1 open 1 park 1 take 0 over 0 care 1 close 1\n",
            "",
            17,
        ),
        ("close 1\nend\n", "close 1\n", 17),
        // One stands there again, or one of its pair alone.
        ("close 1\nend\n", "close 1\nend\nend\n", 19),
        (
            "\nopen 0.1 1",
            "\nserver web/s1 always -1 0 5000\nopen 0.1 1",
            3,
        ),
        ("conn web/s1#1 sent", again, 14),
        ("client 0.1 gave", "client 0.1 took", 13),
        ("client 0.1 gave", "client 0.2 gave", 13),
    ];
    show(&rt, rt.alloc(), 5, &cases)
}

#[test]
fn a_server_that_no_line_names_is_refused(rt: HostRuntime) -> Result<(), Fail> {
    let cases = [
        ("pass 0.1 1 web/s1#1", "pass 0.1 1 web/s2#1", 9),
        ("conn web/s1#1 sent", "conn wob/s1#1 sent", 14),
        ("totals\nweb/s1", "totals\nweb/s2", 17),
    ];
    show(&rt, rt.alloc(), 7, &cases)
}

/// The greatest length of a text, and one more.
const TOO_LONG: usize = 16_777_217;

#[test]
fn a_text_that_is_too_long_is_refused_first(rt: HostRuntime) -> Result<(), Fail> {
    for front in ["hx-transcript 1\n", "no transcript\n"] {
        let mut text = front.to_string(rt.alloc())?;
        for _ in 0..TOO_LONG {
            if text.len() < TOO_LONG {
                text.push('x')?;
            }
        }
        let found = check_text(rt.alloc(), text.as_bytes())?;
        assert_eq!(rt; found, Checked::Fault { line: 1, rule: 6 }, "{front}");
    }
    Ok(())
}

/// How many sessions the long transcript has, each with two records.
const SESSIONS: u32 = 5_000;

/// The connection rests before each session but the first, which opens it.
fn marks(alloc: Global) -> Result<String, Fail> {
    let mut text = "open 0.1 1\npark 0.1 1 0:0 1\n".to_string(alloc)?;
    for k in 1..SESSIONS {
        let n = k + 1;
        let line = format!(in alloc; "take 0.{n} 1 0:0 {k} first\npark 0.{n} 1 0:0 {n}\n")?;
        text.push_str(line.as_str())?;
    }
    Ok(text)
}

/// Each session's exchange goes over the one connection.
fn records(alloc: Global) -> Result<String, Fail> {
    let mut text = String::new(alloc);
    for k in 0..SESSIONS {
        let n = k + 1;
        let (a, b, c, d) = (28 * k, 28 * n, 40 * k, 40 * n);
        let line = format!(in alloc;
            "pass 0.{n} 1 web/s1#1 {n} ask 0-28 sent {a}-{b} took {c}-{d} gave 0-40 keep\nleft 0.{n} 28-28 end\n"
        )?;
        text.push_str(line.as_str())?;
    }
    Ok(text)
}

const ASK: &str = "GET /a HTTP/1.1\\r\\nHost: h\\r\\n\\r\\n";

const ANSWER: &str = "HTTP/1.1 200 OK\\r\\nContent-Length: 2\\r\\n\\r\\nhi";

/// The bytes of the clients.
fn clients(alloc: Global) -> Result<String, Fail> {
    let mut text = String::new(alloc);
    for k in 0..SESSIONS {
        let n = k + 1;
        let line = format!(in alloc;
            "client 0.{n} took \"{ASK}\"\nclient 0.{n} gave \"{ANSWER}\"\n"
        )?;
        text.push_str(line.as_str())?;
    }
    Ok(text)
}

/// The text so many times.
fn again(alloc: Global, part: &str) -> Result<String, Fail> {
    let mut text = String::new(alloc);
    for _ in 0..SESSIONS {
        text.push_str(part)?;
    }
    Ok(text)
}

/// A transcript of 10,000 records, with this line of totals.
fn long(alloc: Global, totals: &str) -> Result<String, Fail> {
    let mut text = "hx-transcript 1\nserver web/s1 always -1 0 5000\n".to_string(alloc)?;
    text.push_str(marks(alloc)?.as_str())?;
    text.push_str("take 0.0 1 0:0 5000 later\nclose 0.0 1\nrecords\n")?;
    text.push_str(records(alloc)?.as_str())?;
    text.push_str("links\n")?;
    text.push_str(clients(alloc)?.as_str())?;
    text.push_str("conn web/s1#1 sent \"")?;
    text.push_str(again(alloc, ASK)?.as_str())?;
    text.push_str("\"\nconn web/s1#1 took \"")?;
    text.push_str(again(alloc, ANSWER)?.as_str())?;
    text.push_str("\"\ntotals\n")?;
    text.push_str(totals)?;
    text.push_str("\nend\n")?;
    Ok(text)
}

#[test]
fn ten_thousand_records_are_judged(rt: HostRuntime) -> Result<(), Fail> {
    // Behind 2 lines, 10,002 marks, 1 line, 10,000 records, 1 line, 10,000 of clients, 2 of the connection and 1.
    for (totals, found) in [
        (
            "web/s1 open 1 park 5000 take 4999 over 0 care 1 close 1",
            Checked::Holds,
        ),
        (
            "web/s1 open 1 park 5000 take 4998 over 0 care 1 close 1",
            Checked::Broken {
                rule: 6,
                line: 30_010,
            },
        ),
    ] {
        let text = long(rt.alloc(), totals)?;
        assert_eq!(rt; check_text(rt.alloc(), text.as_bytes())?, found);
    }
    Ok(())
}
