//! Texts that spell transcripts: what is wrong in one place is told by its rule and line.

use crate::tests::readings::{TEXT, with};
use hx_check_text::{Checked, check_text};
use std::alloc::Global;
use std::process::Abort;
use std::test::Fail;

/// With its first such part replaced, the text breaks this rule at that line.
fn show(rt: &impl Abort, alloc: Global, rule: u8, cases: &[(&str, &str, u32)]) -> Result<(), Fail> {
    for (old, new, line) in cases {
        let text = with(alloc, TEXT, old, new)?;
        let found = check_text(alloc, text.as_bytes())?;
        assert_eq!(rt; found, Checked::Broken { rule, line: *line }, "{new}");
    }
    Ok(())
}

#[test]
fn opens_and_parks_are_steps_of_the_table(rt: HostRuntime) -> Result<(), Fail> {
    let cases = [
        // The caretaker opens and parks nothing.
        ("open 0.1 1", "open 0.0 1", 3),
        ("close 0.0 1", "park 0.0 1 0:0 2", 7),
        // An open has the next number.
        ("open 0.1 1", "open 0.1 2", 3),
        ("open 0.1 1\n", "open 0.1 1\nopen 0.2 1\n", 4),
        // A session parks what it has, in its thread's row, at a place that is free.
        ("park 0.1 1 0:0", "park 0.2 1 0:0", 4),
        ("park 0.1 1 0:0", "park 1.1 1 1:0", 4),
        ("park 0.1 1 0:0", "park 0.1 1 1:0", 4),
        ("gate 0", "open 0.2 2\npark 0.2 2 0:0 1\ngate 0", 6),
        // It has one use more.
        ("0:0 1\ngate", "0:0 2\ngate", 4),
        ("0:0 1\ngate", "0:0 0\ngate", 4),
    ];
    show(&rt, rt.alloc(), 1, &cases)
}

#[test]
fn takes_and_closes_are_steps_of_the_table(rt: HostRuntime) -> Result<(), Fail> {
    let cases = [
        // A take finds that connection with these uses.
        ("take 0.0 1 0:0 1", "take 0.0 1 0:1 1", 6),
        ("take 0.0 1 0:0 1", "take 0.0 2 0:0 1", 6),
        ("take 0.0 1 0:0 1", "take 0.0 1 0:0 2", 6),
        ("close 0.0 1", "take 0.0 1 0:0 1 later", 7),
        // Who closes a connection has it.
        ("close 0.0 1", "close 0.1 1", 7),
        ("close 0.0 1", "close 1.0 1", 7),
        ("gate 0 drain", "close 0.1 1", 5),
        ("close 0.0 1\n", "close 0.0 1\nclose 0.0 1\n", 8),
        // An interval goes on from the one before, and rises.
        ("gate 0 drain", "round 0 2 1", 5),
        ("gate 0 drain", "round 0 0 0", 5),
        ("gate 0 drain", "round 0 3 0\nround 0 4 2", 6),
    ];
    show(&rt, rt.alloc(), 1, &cases)
}

/// The text with other rules and marks of its server, and other totals.
fn marked(alloc: Global, marks: &str, totals: &str) -> Result<String, Fail> {
    let old =
        "always -1 0 5000\nopen 0.1 1\npark 0.1 1 0:0 1\ngate 0 drain\ntake 0.0 1 0:0 1 later\nclose 0.0 1\n";
    let text = with(alloc, TEXT, old, marks)?;
    with(
        alloc,
        text.as_str(),
        "open 1 park 1 take 0 over 0 care 1 close 1",
        totals,
    )
}

const NO_TOTALS: &str = "open 0 park 0 take 0 over 0 care 0 close 0";

/// These marks break this rule at that line.
fn show_marks(rt: &impl Abort, alloc: Global, rule: u8, cases: &[(&str, u32)]) -> Result<(), Fail> {
    for (marks, line) in cases {
        let text = marked(alloc, marks, NO_TOTALS)?;
        let found = check_text(alloc, text.as_bytes())?;
        assert_eq!(rt; found, Checked::Broken { rule, line: *line }, "{marks}");
    }
    Ok(())
}

#[test]
fn a_mode_allows_parks_and_takes(rt: HostRuntime) -> Result<(), Fail> {
    let cases = [
        ("never -1 0 5000\nopen 0.1 1\npark 0.1 1 0:0 1\n", 4),
        (
            "safe -1 0 5000\nopen 0.1 1\npark 0.1 1 0:0 1\ntake 0.2 1 0:0 1 first\n",
            5,
        ),
        (
            "aggressive -1 0 5000\nopen 0.1 1\npark 0.1 1 0:0 1\ntake 0.2 1 0:0 1 first\n",
            5,
        ),
    ];
    show_marks(&rt, rt.alloc(), 2, &cases)
}

#[test]
fn no_more_rest_than_may(rt: HostRuntime) -> Result<(), Fail> {
    let cases = [
        ("always 0 0 5000\nopen 0.1 1\npark 0.1 1 0:0 1\n", 4),
        (
            "always 1 0 5000\nopen 0.1 1\nopen 1.2 2\npark 0.1 1 0:0 1\npark 1.2 2 1:0 1\n",
            6,
        ),
    ];
    show_marks(&rt, rt.alloc(), 3, &cases)
}

/// So many connections are opened and parked in one row.
fn crowded(alloc: Global, count: u32) -> Result<String, Fail> {
    let mut text = "always -1 0 5000\n".to_string(alloc)?;
    for k in 0..count {
        let id = k + 1;
        let line = format!(in alloc; "open 0.1 {id}\npark 0.1 {id} 0:{k} 1\n")?;
        text.push_str(line.as_str())?;
    }
    Ok(text)
}

#[test]
fn a_row_has_sixty_four_places(rt: HostRuntime) -> Result<(), Fail> {
    for (count, totals, found) in [
        (
            64,
            "open 64 park 64 take 0 over 0 care 0 close 0",
            Checked::Holds,
        ),
        (
            65,
            "open 65 park 65 take 0 over 0 care 0 close 0",
            Checked::Broken { rule: 3, line: 132 },
        ),
    ] {
        let marks = crowded(rt.alloc(), count)?;
        let text = marked(rt.alloc(), marks.as_str(), totals)?;
        assert_eq!(rt; check_text(rt.alloc(), text.as_bytes())?, found);
    }
    Ok(())
}

#[test]
fn marks_that_may_be_made_break_no_rule(rt: HostRuntime) -> Result<(), Fail> {
    for (marks, totals) in [
        // As many rest as may; intervals rise.
        (
            "always 1 0 5000\nopen 0.1 1\npark 0.1 1 0:0 1\nround 0 1 0\nround 0 4 1\n",
            "open 1 park 1 take 0 over 0 care 0 close 0",
        ),
        // Under safe a later request may take what rests, under aggressive a first one what was used twice.
        (
            "safe -1 0 5000\nopen 0.1 1\npark 0.1 1 0:0 1\ntake 0.2 1 0:0 1 later\nclose 0.2 1\n",
            "open 1 park 1 take 1 over 0 care 0 close 1",
        ),
        (
            "aggressive -1 0 5000\nopen 0.1 1\npark 0.1 1 0:0 1\ntake 1.2 1 0:0 1 later\npark 1.2 1 1:0 2\ntake 1.3 1 1:0 2 first\nclose 1.3 1\n",
            "open 1 park 2 take 1 over 1 care 0 close 1",
        ),
    ] {
        let text = marked(rt.alloc(), marks, totals)?;
        let found = check_text(rt.alloc(), text.as_bytes())?;
        assert_eq!(rt; found, Checked::Holds, "{marks}");
    }
    Ok(())
}

#[test]
fn a_passed_exchange_is_true_of_its_bytes(rt: HostRuntime) -> Result<(), Fail> {
    let cases = [
        // One byte of what was sent, read or given is another one.
        (
            "conn web/s1#1 sent \"GET /a",
            "conn web/s1#1 sent \"GET /b",
            9,
        ),
        ("hi\"\ntotals", "ho\"\ntotals", 9),
        ("hi\"\nconn", "ho\"\nconn", 9),
        // The request isn't whole, the answer isn't, and none said that the connection closes.
        ("ask 0-28 sent", "ask 0-27 sent", 9),
        ("took 0-40 gave", "took 0-39 gave", 9),
        ("0-40 keep", "0-40 close", 9),
        // A range ends before it begins, past its bytes, or its link has none.
        ("ask 0-28 sent", "ask 28-0 sent", 9),
        ("took 0-40 gave", "took 0-41 gave", 9),
        ("pass 0.1 1", "pass 0.2 1", 9),
        ("web/s1#1 1 ask", "web/s1#2 1 ask", 9),
        ("left 0.1 28-28", "left 0.1 28-29", 10),
        ("left 0.1 28-28", "left 0.1 28-27", 10),
    ];
    show(&rt, rt.alloc(), 4, &cases)
}

/// The line of the passed exchange.
const PASS: &str = "pass 0.1 1 web/s1#1 1 ask 0-28 sent 0-28 took 0-40 gave 0-40 keep";

/// With this line in place of the passed exchange, this is found.
fn show_records(rt: &impl Abort, alloc: Global, cases: &[(&str, Checked)]) -> Result<(), Fail> {
    for (record, expected) in cases {
        let text = with(alloc, TEXT, PASS, record)?;
        let found = check_text(alloc, text.as_bytes())?;
        assert_eq!(rt; found, *expected, "{record}");
    }
    Ok(())
}

/// The record isn't true of its bytes.
const FALSE: Checked = Checked::Broken { rule: 4, line: 9 };

/// The ranges of the session don't reach the end of its bytes.
const SHORT: Checked = Checked::Broken { rule: 5, line: 10 };

#[test]
fn what_was_cut_off_went_out_in_part(rt: HostRuntime) -> Result<(), Fail> {
    let cases = [
        (
            "cut 0.1 1 web/s1#1 1 ask 0-28 sent 0-28 took 0-40 gave 0-40 close-no ended",
            Checked::Holds,
        ),
        (
            "cut 0.1 1 web/s1#1 1 ask 0-28 sent 0-10 took 0-40 gave 0-39 close-no client",
            SHORT,
        ),
        (
            "cut 0.1 1 web/s1#1 1 ask 0-28 sent 1-28 took 0-40 gave 0-40 close-no ended",
            FALSE,
        ),
        (
            "cut 0.1 1 web/s1#1 1 ask 0-28 sent 0-28 took 0-40 gave 1-40 close-no ended",
            FALSE,
        ),
        (
            "cut 0.1 1 web/s1#1 1 ask 0-28 sent 0-28 took 0-40 gave 0-40 close-yes ended",
            FALSE,
        ),
    ];
    show_records(&rt, rt.alloc(), &cases)
}

#[test]
fn an_own_answer_is_that_of_its_status(rt: HostRuntime) -> Result<(), Fail> {
    let cases = [
        // What was given begins as each own answer does.
        ("own 0.1 1 400 ask 0-28 gave 0-9", SHORT),
        ("own 0.1 1 400 ask 0-28 gave 0-40", FALSE),
        ("own 0.1 1 200 ask 0-28 gave 0-9", FALSE),
        ("own 0.1 1 418 ask 0-28 gave 0-0", FALSE),
    ];
    show_records(&rt, rt.alloc(), &cases)
}

#[test]
fn the_bytes_of_a_client_are_told_once(rt: HostRuntime) -> Result<(), Fail> {
    let client = "client 0.2 took \"\"\nclient 0.2 gave \"\"\nconn web/s1#1 sent";
    let cases = [
        // A left line that is missing, that comes again, or that isn't the last.
        ("left 0.1 28-28 end\n", "", 11),
        (
            "left 0.1 28-28 end\n",
            "left 0.1 28-28 end\nleft 0.1 28-28 end\n",
            10,
        ),
        ("records\n", "records\nleft 0.1 0-0 end\n", 9),
        ("conn web/s1#1 sent", client, 14),
        // A byte that is told twice, and bytes that aren't told.
        ("left 0.1 28-28", "left 0.1 27-28", 10),
        ("h\\r\\n\\r\\n\"", "h\\r\\n\\r\\nGET\"", 10),
        ("hi\"\nconn", "hiho\"\nconn", 10),
    ];
    show(&rt, rt.alloc(), 5, &cases)
}

#[test]
fn the_exchanges_of_a_connection_are_numbered(rt: HostRuntime) -> Result<(), Fail> {
    let cases = [
        ("web/s1#1 1 ask", "web/s1#1 2 ask", 14),
        ("web/s1#1 1 ask", "web/s1#1 0 ask", 14),
    ];
    show(&rt, rt.alloc(), 5, &cases)
}

#[test]
fn totals_are_those_of_the_marks(rt: HostRuntime) -> Result<(), Fail> {
    let cases = [
        ("web/s1 open 1 park", "web/s1 open 2 park", 17),
        ("park 1 take", "park 0 take", 17),
        ("take 0 over", "take 1 over", 17),
        ("over 0 care", "over 1 care", 17),
        ("care 1 close", "care 0 close", 17),
        ("close 1\nend", "close 2\nend", 17),
    ];
    show(&rt, rt.alloc(), 6, &cases)
}

/// With two such parts replaced, this is found.
fn show_two(
    rt: &impl Abort,
    alloc: Global,
    first: (&str, &str),
    second: (&str, &str),
    expected: Checked,
) -> Result<(), Fail> {
    let text = with(alloc, TEXT, first.0, first.1)?;
    let text = with(alloc, text.as_str(), second.0, second.1)?;
    let found = check_text(alloc, text.as_bytes())?;
    let new = second.1;
    assert_eq!(rt; found, expected, "{new}");
    Ok(())
}

#[test]
fn the_ranges_of_a_connection_begin_at_its_first_byte(rt: HostRuntime) -> Result<(), Fail> {
    for (link, old, new, line) in [
        ("conn web/s1#1 sent \"", "sent 0-28", "sent 1-29", 14),
        ("conn web/s1#1 took \"", "took 0-40", "took 1-41", 15),
    ] {
        let more = format!(in rt.alloc(); "{link}X")?;
        let expected = Checked::Broken { rule: 5, line };
        show_two(&rt, rt.alloc(), (link, more.as_str()), (old, new), expected)?;
    }
    // Bytes behind the last exchange are told by no record.
    let (old, new) = ("hi\"\ntotals", "hiHTTP\"\ntotals");
    show_two(
        &rt,
        rt.alloc(),
        (old, new),
        ("\nconn", "\nconn"),
        Checked::Holds,
    )
}

#[test]
fn each_rule_is_tried_over_the_whole_before_the_next(rt: HostRuntime) -> Result<(), Fail> {
    for (old, new, other, others, rule, line) in [
        (
            "always -1",
            "never -1",
            "take 0.0 1 0:0",
            "take 0.0 1 0:1",
            1,
            6,
        ),
        ("always -1", "never 0", "close 1\nend", "close 2\nend", 2, 4),
        (
            "left 0.1 28-28",
            "left 0.1 28-29",
            "always -1",
            "always 0",
            3,
            4,
        ),
        ("left 0.1 28-28 end\n", "", "ask 0-28", "ask 0-27", 4, 9),
        (
            "left 0.1 28-28",
            "left 0.1 27-28",
            "close 1\nend",
            "close 2\nend",
            5,
            10,
        ),
    ] {
        let expected = Checked::Broken { rule, line };
        show_two(&rt, rt.alloc(), (old, new), (other, others), expected)?;
    }
    Ok(())
}

#[test]
fn each_server_has_marks_of_its_own(rt: HostRuntime) -> Result<(), Fail> {
    let totals = "close 1\nweb/s2 open 1 park 0 take 0 over 0 care 0 close 0\nend";
    for (marks, expected) in [
        ("open 0.2 1", Checked::Holds),
        ("open 0.2 2", Checked::Broken { rule: 1, line: 9 }),
        (
            "open 0.2 1\nclose 0.2 1",
            Checked::Broken { rule: 6, line: 21 },
        ),
    ] {
        let server = format!(in rt.alloc(); "\nserver web/s2 always -1 0 5000\n{marks}\nrecords")?;
        show_two(
            &rt,
            rt.alloc(),
            ("\nrecords", server.as_str()),
            ("close 1\nend", totals),
            expected,
        )?;
    }
    Ok(())
}
