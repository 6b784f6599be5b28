//! The lines of servers and of their marks.
ghost use Rattle.std.specs.Prelude.{◌≡◌, ◌++◌, OnOk, decimal, codes};
ghost use Rattle.std.specs.List.{flat_map};
ghost use Rattle.hx_script.specs.MarkLines.{who_conn, place_uses, first_text, gate_text, round_line, mark_line, mode_text, max_text, full_name, server_line, server_lines};

use crate::pieces::{put, put_number, put_place, put_who};
use crate::transcript::ServerPart;
use hx_base::{ConnId, Mode, NoMemory, PlaceNo, SessionNo, ThreadNo};
use hx_pool::Entry;

// The word of a mark, its session and its connection.
fn put_id(
    out: &mut Vec<u8>,
    word: &[u8],
    t: ThreadNo,
    n: SessionNo,
    id: ConnId,
) -> Result<(), NoMemory>
    ensures { OnOk result (out.new.items ≡ out.old.items ++ word.now ++ who_conn t n id) }
{
    put(out, word)?;
    put_who(out, t, n)?;
    put(out, b" ")?;
    put_number(out, id.0)
}

// The same, where nothing follows.
fn put_whole(
    out: &mut Vec<u8>,
    word: &[u8],
    t: ThreadNo,
    n: SessionNo,
    id: ConnId,
) -> Result<(), NoMemory>
    ensures { OnOk result (out.new.items ≡ out.old.items ++ word.now ++ who_conn t n id ++ codes "\n") }
{
    put_id(out, word, t, n, id)?;
    put(out, b"\n")
}

fn put_rest(out: &mut Vec<u8>, place: PlaceNo, uses: u16) -> Result<(), NoMemory>
    ensures { OnOk result (out.new.items ≡ out.old.items ++ place_uses place uses) }
{
    put(out, b" ")?;
    put_place(out, place)?;
    put(out, b" ")?;
    put_number(out, u64::from(uses))
}

fn first_word(first: bool) -> &'static [u8]
    ensures { result.now ≡ first_text first }
{
    if first { b" first\n" } else { b" later\n" }
}

fn gate_word(draining: bool) -> &'static [u8]
    ensures { result.now ≡ gate_text draining }
{
    if draining { b" drain\n" } else { b" ready\n" }
}

fn put_gate(out: &mut Vec<u8>, t: ThreadNo, draining: bool) -> Result<(), NoMemory>
    ensures { OnOk result (out.new.items ≡ out.old.items ++ codes "gate " ++ decimal t.0 ++ gate_text draining) }
{
    put(out, b"gate ")?;
    put_number(out, u64::from(t.0))?;
    put(out, gate_word(draining))
}

#[tactic(auto, unfolding(crate::specs::MarkLines::round_line))]
fn put_round(out: &mut Vec<u8>, t: ThreadNo, k: u64, old: u64) -> Result<(), NoMemory>
    ensures { OnOk result (out.new.items ≡ out.old.items ++ round_line t k old) }
{
    put(out, b"round ")?;
    put_number(out, u64::from(t.0))?;
    put(out, b" ")?;
    put_number(out, k)?;
    put(out, b" ")?;
    put_number(out, old)?;
    put(out, b"\n")
}

/// The line of a mark; other entries have none.
#[tactic(auto, unfolding(crate::specs::MarkLines::mark_line))]
pub(crate) fn put_mark(out: &mut Vec<u8>, mark: Entry) -> Result<(), NoMemory>
    ensures { OnOk result (out.new.items ≡ out.old.items ++ mark_line mark) }
{
    match mark {
        Entry::Open { t, n, id } => put_whole(out, b"open ", t, n, id),
        Entry::Park {
            t,
            n,
            id,
            place,
            uses,
        } => {
            put_id(out, b"park ", t, n, id)?;
            put_rest(out, place, uses)?;
            put(out, b"\n")
        }
        Entry::Take {
            t,
            n,
            first,
            place,
            id,
            uses,
        } => {
            put_id(out, b"take ", t, n, id)?;
            put_rest(out, place, uses)?;
            put(out, first_word(first))
        }
        Entry::Close { t, n, id } => put_whole(out, b"close ", t, n, id),
        Entry::SetGate { t, draining } => put_gate(out, t, draining),
        Entry::Round { t, k, old } => put_round(out, t, k, old),
        Entry::Free { .. } => Ok(()),
        Entry::Look { .. } => Ok(()),
        Entry::Up { .. } => Ok(()),
        Entry::Down { .. } => Ok(()),
        Entry::Count { .. } => Ok(()),
        Entry::Gate { .. } => Ok(()),
    }
}

pub(crate) fn put_marks(out: &mut Vec<u8>, marks: &[Entry]) -> Result<(), NoMemory>
    ensures { OnOk result (out.new.items ≡ out.old.items ++ flat_map mark_line marks.now) }
{
    for mark in marks {
        put_mark(out, *mark)?;
    }
    Ok(())
}

fn mode_word(mode: Mode) -> &'static [u8]
    ensures { result.now ≡ mode_text mode }
{
    match mode {
        Mode::Never => b"never",
        Mode::Safe => b"safe",
        Mode::Aggressive => b"aggressive",
        Mode::Always => b"always",
    }
}

fn put_max(out: &mut Vec<u8>, max: Option<u32>) -> Result<(), NoMemory>
    ensures { OnOk result (out.new.items ≡ out.old.items ++ max_text max) }
{
    match max {
        None => put(out, b"-1"),
        Some(n) => put_number(out, u64::from(n)),
    }
}

pub(crate) fn put_full_name(out: &mut Vec<u8>, part: &ServerPart) -> Result<(), NoMemory>
    ensures { OnOk result (out.new.items ≡ out.old.items ++ full_name part.now) }
{
    put(out, part.back.as_slice())?;
    put(out, b"/")?;
    put(out, part.server.as_slice())
}

#[tactic(auto, unfolding(crate::specs::MarkLines::server_line))]
fn put_server_line(out: &mut Vec<u8>, part: &ServerPart) -> Result<(), NoMemory>
    ensures { OnOk result (out.new.items ≡ out.old.items ++ server_line part.now) }
{
    put(out, b"server ")?;
    put_full_name(out, part)?;
    put(out, b" ")?;
    put(out, mode_word(part.rules.mode))?;
    put(out, b" ")?;
    put_max(out, part.rules.max)?;
    put(out, b" ")?;
    put_number(out, u64::from(part.rules.low))?;
    put(out, b" ")?;
    put_number(out, part.rules.delay.0)?;
    put(out, b"\n")
}

#[tactic(auto, unfolding(crate::specs::MarkLines::server_lines))]
pub(crate) fn put_server(out: &mut Vec<u8>, part: &ServerPart) -> Result<(), NoMemory>
    ensures { OnOk result (out.new.items ≡ out.old.items ++ server_lines part.now) }
{
    put_server_line(out, part)?;
    put_marks(out, part.marks.as_slice())
}
