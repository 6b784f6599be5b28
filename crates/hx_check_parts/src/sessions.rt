//! What records tell of each session, in a table.
ghost use Rattle.std.specs.Prelude.{◌≡◌, ◌∷◌, [], ◌++◌, List, true, length, OnOk};
ghost use Rattle.hx_record.specs.Tiles.{is_line_of};
ghost use Rattle.hx_check_table.specs.Tables.{value_at};
ghost use Rattle.hx_check_parts.specs.Sessions.{reach, covered_in, session_in, IsCovered, KeepsSessions};

use hx_base::{NoMemory, SessionNo, Span, ThreadNo};
use hx_check_table::Table;
use hx_record::Told;

/// What records tell of one session.
#[derive(Clone, Copy)]
pub(crate) struct Covered {
    /// The index of its last record.
    pub(crate) last: Option<usize>,
    /// One of them is a left line.
    pub(crate) left: bool,
    /// Where its ranges end, if they follow each other from the first byte: what was read of the client, and what it was given.
    pub(crate) asks: Option<u64>,
    pub(crate) gaves: Option<u64>,
}

/// Where ranges end that follow each other, with one more.
fn reach(end: Option<u64>, span: Span) -> Option<u64>
    ensures { result ≡ reach end span }
{
    match end {
        None => None,
        Some(end) => {
            if span.from == end && span.to >= span.from {
                Some(span.to)
            } else {
                None
            }
        }
    }
}

/// The same with a record more, which is of that session and has that index.
fn covered_more(covered: Covered, told: Told, at: usize) -> Covered
    ensures { (t : ThreadNo) (n : SessionNo) (records : List Told) → is_line_of t n told ≡ true → length records ≡ at
        → IsCovered t n records covered → IsCovered t n (records ++ told ∷ []) result }
{
    match told {
        Told::Served(s) => Covered {
            last: Some(at),
            left: covered.left,
            asks: reach(covered.asks, s.ask),
            gaves: reach(covered.gaves, s.gave),
        },
        Told::Left(l) => Covered {
            last: Some(at),
            left: true,
            asks: reach(covered.asks, l.ask),
            gaves: covered.gaves,
        },
    }
}

/// The session of a record.
fn session_in(told: Told) -> (ThreadNo, SessionNo)
    ensures { result ≡ session_in told }
{
    match told {
        Told::Served(s) => (s.worker, s.session),
        Told::Left(l) => (l.worker, l.session),
    }
}

/// What the table has of a session.
pub(crate) fn covered_at(table: &Table<Covered>, t: ThreadNo, n: SessionNo) -> Covered
    ensures { result ≡ covered_in (value_at table.now t.0 n.0 0) }
{
    match table.at(u64::from(t.0), u64::from(n.0), 0) {
        None => Covered {
            last: None,
            left: false,
            asks: Some(0),
            gaves: Some(0),
        },
        Some(covered) => covered,
    }
}

/// Adds the record at that index.
pub(crate) fn note_session(
    table: &mut Table<Covered>,
    told: Told,
    at: usize,
) -> Result<(), NoMemory>
    ensures { OnOk result ((records : List Told) → length records ≡ at → KeepsSessions records table.old
        → KeepsSessions (records ++ told ∷ []) table.new) }
{
    let (t, n) = session_in(told);
    let covered = covered_at(table, t, n);
    let more = covered_more(covered, told, at);
    table.put(t.0 as u64, n.0 as u64, 0, more)?;
    Ok(())
}
