//! What the last marks of a connection and of a place tell. Each call looks back from the end.
ghost use Rattle.std.specs.Prelude.{◌≡◌, None, MatchOption};
ghost use Rattle.hx_check_parts.specs.Marks.{MarkTable, marked, table_of};
ghost use Rattle.hx_check_parts.specs.Last.{is_held};

use hx_base::{ConnId, Face, PlaceNo, SessionNo, ThreadNo};
use hx_pool::Entry;

/// Whether the mark leaves the connection with that session. None: it is no mark of that connection.
fn holds_after(mark: Entry, t: ThreadNo, n: SessionNo, id: ConnId) -> Option<bool>
    ensures { MatchOption result
        ((T : MarkTable) → is_held ((marked T mark).conns id.0) t n ≡ is_held (T.conns id.0) t n)
        (λ held. (T : MarkTable) → is_held ((marked T mark).conns id.0) t n ≡ held) }
{
    let (other, held) = match mark {
        Entry::Open { t: by, n: of, id } => (id, by == t && of == n),
        Entry::Take {
            t: by,
            n: of,
            id,
            ..
        } => (id, by == t && of == n),
        Entry::Park { id, .. } | Entry::Close { id, .. } => (id, false),
        _ => return None,
    };
    if other == id { Some(held) } else { None }
}

/// Whether the connection is with that session.
pub(crate) fn is_with(marks: &[Entry], t: ThreadNo, n: SessionNo, id: ConnId) -> bool
    ensures { result ≡ is_held ((table_of marks.now).conns id.0) t n }
{
    let mut end = marks.len();
    while end > 0 {
        end -= 1;
        if let Some(held) = holds_after(marks[end], t, n, id) {
            return held;
        }
    }
    false
}

/// How many uses the mark gives the connection. None: it changes none.
fn uses_after(mark: Entry, id: ConnId) -> Option<u16>
    ensures { MatchOption result
        ((T : MarkTable) → (marked T mark).uses id.0 ≡ T.uses id.0)
        (λ uses. (T : MarkTable) → (marked T mark).uses id.0 ≡ uses) }
{
    let (other, uses) = match mark {
        Entry::Open { id, .. } => (id, 0),
        Entry::Park { id, uses, .. } => (id, uses),
        _ => return None,
    };
    if other == id { Some(uses) } else { None }
}

/// The uses of the connection.
pub(crate) fn uses_of(marks: &[Entry], id: ConnId) -> u16
    ensures { result ≡ (table_of marks.now).uses id.0 }
{
    let mut end = marks.len();
    while end > 0 {
        end -= 1;
        if let Some(uses) = uses_after(marks[end], id) {
            return uses;
        }
    }
    0
}

/// What the mark leaves at the place. None: it is no mark of that place.
fn rests_after(mark: Entry, at: PlaceNo) -> Option<Option<Face>>
    ensures { MatchOption result
        ((T : MarkTable) → (marked T mark).rests at.row at.place ≡ T.rests at.row at.place)
        (λ face. (T : MarkTable) → (marked T mark).rests at.row at.place ≡ face) }
{
    let (other, face) = match mark {
        Entry::Park {
            id,
            place,
            uses,
            ..
        } => (place, Some(Face { id, uses })),
        Entry::Take { place, .. } => (place, None),
        _ => return None,
    };
    if other == at { Some(face) } else { None }
}

/// What rests at the place.
pub(crate) fn resting_at(marks: &[Entry], at: PlaceNo) -> Option<Face>
    ensures { result ≡ (table_of marks.now).rests at.row at.place }
{
    let mut end = marks.len();
    while end > 0 {
        end -= 1;
        if let Some(face) = rests_after(marks[end], at) {
            return face;
        }
    }
    None
}
