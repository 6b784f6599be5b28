//! What sessions did, in the words of a transcript.

use hx_base::{Mode, NoMemory, PlaceNo, PoolRules, Span};
use hx_pool::Entry;
use hx_record::{Carried, CutCause, Kind, Left, LeftCause, Served, Told};
use std::alloc::Global;

fn spell_mode(mode: Mode) -> &'static str {
    match mode {
        Mode::Never => "never",
        Mode::Safe => "safe",
        Mode::Aggressive => "aggressive",
        Mode::Always => "always",
    }
}

/// The line of a server, of which only the number is told.
pub(crate) fn server_line(alloc: Global, no: u16, rules: PoolRules) -> Result<String, NoMemory> {
    let place = no as u32 + 1;
    let mode = spell_mode(rules.mode);
    let low = rules.low;
    let delay = rules.delay.0;
    match rules.max {
        None => Ok(format!(in alloc; "server web/s{place} {mode} -1 {low} {delay}\n")?),
        Some(max) => Ok(format!(in alloc; "server web/s{place} {mode} {max} {low} {delay}\n")?),
    }
}

fn spell_place(alloc: Global, place: PlaceNo, uses: u16) -> Result<String, NoMemory> {
    let PlaceNo { row, place } = place;
    Ok(format!(in alloc; "{row}:{place} {uses}")?)
}

/// The line of a mark of a seat.
pub(crate) fn mark_line(alloc: Global, mark: Entry) -> Result<String, NoMemory> {
    match mark {
        Entry::Open { t, n, id } => Ok(format!(in alloc; "open {}.{} {}\n", t.0, n.0, id.0)?),
        Entry::Close { t, n, id } => Ok(format!(in alloc; "close {}.{} {}\n", t.0, n.0, id.0)?),
        Entry::Park {
            t,
            n,
            id,
            place,
            uses,
        } => {
            let at = spell_place(alloc, place, uses)?;
            Ok(format!(in alloc; "park {}.{} {} {at}\n", t.0, n.0, id.0)?)
        }
        Entry::Take {
            t,
            n,
            first,
            place,
            id,
            uses,
        } => {
            let at = spell_place(alloc, place, uses)?;
            let when = if first { "first" } else { "later" };
            Ok(format!(in alloc; "take {}.{} {} {at} {when}\n", t.0, n.0, id.0)?)
        }
        Entry::SetGate { t, draining } => {
            let state = if draining { "drain" } else { "ready" };
            Ok(format!(in alloc; "gate {} {state}\n", t.0)?)
        }
        _ => Ok(format!(in alloc; "another mark\n")?),
    }
}

fn spell_span(alloc: Global, span: Span) -> Result<String, NoMemory> {
    Ok(format!(in alloc; "{}-{}", span.from, span.to)?)
}

fn spell_cause(cause: CutCause) -> &'static str {
    match cause {
        CutCause::Early => "early",
        CutCause::Ended => "ended",
        CutCause::Fault => "fault",
        CutCause::Broken => "broken",
        CutCause::Late => "late",
        CutCause::Client => "client",
        CutCause::Stop => "stop",
        CutCause::Silent => "silent",
    }
}

fn spell_left(cause: LeftCause) -> &'static str {
    match cause {
        LeftCause::End => "end",
        LeftCause::Closing => "closing",
        LeftCause::Own => "own",
        LeftCause::Cut => "cut",
        LeftCause::Idle => "idle",
        LeftCause::Fault => "fault",
        LeftCause::Stop => "stop",
    }
}

/// The words of an exchange, from its session on.
fn spell_carried(alloc: Global, served: Served, carried: Carried) -> Result<String, NoMemory> {
    let who = spell_request(alloc, served)?;
    let ask = spell_span(alloc, served.ask)?;
    let gave = spell_span(alloc, served.gave)?;
    let sent = spell_span(alloc, carried.sent)?;
    let took = spell_span(alloc, carried.took)?;
    let place = carried.server.0 as u32 + 1;
    let id = carried.id.0;
    let nth = carried.nth;
    Ok(format!(in alloc;
        "{who} web/s{place}#{id} {nth} ask {ask} sent {sent} took {took} gave {gave}"
    )?)
}

/// A request, by its session and its number.
fn spell_request(alloc: Global, served: Served) -> Result<String, NoMemory> {
    let Served {
        worker,
        session,
        number,
        ..
    } = served;
    Ok(format!(in alloc; "{}.{} {number}", worker.0, session.0)?)
}

fn served_line(alloc: Global, served: Served) -> Result<String, NoMemory> {
    match served.kind {
        Kind::Passed(carried) => {
            let words = spell_carried(alloc, served, carried)?;
            let end = if carried.closing { "close" } else { "keep" };
            Ok(format!(in alloc; "pass {words} {end}\n")?)
        }
        Kind::Cut(carried, cause) => {
            let words = spell_carried(alloc, served, carried)?;
            let end = if carried.closing {
                "close-yes"
            } else {
                "close-no"
            };
            let why = spell_cause(cause);
            Ok(format!(in alloc; "cut {words} {end} {why}\n")?)
        }
        Kind::Own(status) => {
            let who = spell_request(alloc, served)?;
            let ask = spell_span(alloc, served.ask)?;
            let gave = spell_span(alloc, served.gave)?;
            Ok(format!(in alloc; "own {who} {status} ask {ask} gave {gave}\n")?)
        }
    }
}

/// The line of a record.
pub(crate) fn record_line(alloc: Global, told: Told) -> Result<String, NoMemory> {
    match told {
        Told::Served(served) => served_line(alloc, served),
        Told::Left(left) => {
            let Left {
                worker,
                session,
                ask,
                cause,
            } = left;
            let rest = spell_span(alloc, ask)?;
            let why = spell_left(cause);
            Ok(format!(in alloc; "left {}.{} {rest} {why}\n", worker.0, session.0)?)
        }
    }
}

/// Bytes between quotes, each line end and quote behind a stroke.
pub(crate) fn quoted(alloc: Global, bytes: &[u8]) -> Result<String, NoMemory> {
    let mut out = String::new(alloc);
    out.push('"')?;
    for byte in bytes {
        match *byte {
            b'\r' => out.push_str("\\r")?,
            b'\n' => out.push_str("\\n")?,
            b'"' => out.push_str("\\\"")?,
            b'\\' => out.push_str("\\\\")?,
            other => out.push(other as char)?,
        }
    }
    out.push('"')?;
    Ok(out)
}
