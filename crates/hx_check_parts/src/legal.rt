//! The first rule: each mark is a step of the connection table.
ghost use Rattle.std.specs.Prelude.{◌≡◌, ◌≤◌, ◌+◌, ◌-◌, ◌<◌, ◌^◌, ◌↔◌, IsTrue, IfOk, MatchOption, length};
ghost use Rattle.hx_check_parts.specs.Each.{HoldsOfEach, FailsFirst};
ghost use Rattle.hx_check_parts.specs.Marks.{MarkTable, marked, table_of, IsStep, IsStepAt};
ghost use Rattle.hx_check_parts.specs.Last.{Counts};
ghost use Rattle.hx_check_parts.specs.Lasts.{Keeps};
ghost use Rattle.hx_check_parts.specs.Here.{IsHere};

use crate::last::{is_with, resting_at, uses_of};
use crate::lasts::Lasts;
use hx_base::{ConnId, Face, NoMemory, PlaceNo, SessionNo, ThreadNo};
use hx_pool::Entry;
use std::alloc::Global;

/// The number of the next connection and that of the last purge interval.
#[derive(Clone, Copy)]
struct Numbers {
    next: u64,
    round: u64,
}

/// The numbers before all marks.
const FIRST: Numbers = Numbers { next: 1, round: 0 };

impl Numbers {
    /// The numbers after a mark.
    fn after(self, mark: Entry) -> Numbers
        requires { self.next < 2 ^ 64 - 1 }
        ensures tells { (T : MarkTable) → Counts T self.next self.round
            → Counts (marked T mark) result.next result.round }
        ensures grows { result.next ≤ self.next + 1 }
    {
        match mark {
            Entry::Open { .. } => Numbers {
                next: self.next + 1,
                round: self.round,
            },
            Entry::Round { k, .. } => Numbers {
                next: self.next,
                round: k,
            },
            _ => self,
        }
    }
}

/// What the table has of the connection and at the place that a mark names.
#[derive(Clone, Copy)]
pub(crate) struct Here {
    /// The connection is with the mark's session.
    held: bool,
    uses: u16,
    face: Option<Face>,
}

const NOTHING: Here = Here {
    held: false,
    uses: 0,
    face: None,
};

/// What marks leave where the next one looks. It goes back from their end.
fn here_by_marks(marks: &[Entry], mark: Entry) -> Here
    ensures { IsHere (table_of marks.now) mark result }
{
    match mark {
        Entry::Park {
            t,
            n,
            id,
            place,
            ..
        } => Here {
            held: is_with(marks, t, n, id),
            uses: uses_of(marks, id),
            face: resting_at(marks, place),
        },
        Entry::Take { place, .. } => Here {
            face: resting_at(marks, place),
            ..NOTHING
        },
        Entry::Close { t, n, id } => Here {
            held: is_with(marks, t, n, id),
            ..NOTHING
        },
        _ => NOTHING,
    }
}

/// The same, by tables.
fn here_by_tables(lasts: &Lasts, mark: Entry) -> Here
    ensures { (T : MarkTable) → Keeps T lasts.now → IsHere T mark result }
{
    match mark {
        Entry::Park {
            t,
            n,
            id,
            place,
            ..
        } => Here {
            held: lasts.is_with(t, n, id),
            uses: lasts.uses_of(id),
            face: lasts.resting_at(place),
        },
        Entry::Take { place, .. } => Here {
            face: lasts.resting_at(place),
            ..NOTHING
        },
        Entry::Close { t, n, id } => Here {
            held: lasts.is_with(t, n, id),
            ..NOTHING
        },
        _ => NOTHING,
    }
}

/// Whether the session may park the connection so, where the table has this.
fn may_park(here: Here, t: ThreadNo, n: SessionNo, place: PlaceNo, uses: u16) -> bool
    ensures { (T : MarkTable) (id : ConnId) → IsHere T (Entry.Park t n id place uses) here
        → IsTrue result ↔ IsStep T (Entry.Park t n id place uses) }
{
    n != SessionNo(0)
        && place.row == t.0
        && u64::from(uses) == u64::from(here.uses) + 1
        && here.held
        && here.face.is_none()
}

/// Whether the mark is a step of a table that has these numbers and this.
fn is_step(here: Here, numbers: Numbers, mark: Entry) -> bool
    ensures { (T : MarkTable) → Counts T numbers.next numbers.round → IsHere T mark here
        → IsTrue result ↔ IsStep T mark }
{
    match mark {
        Entry::Open { n, id, .. } => n != SessionNo(0) && id.0 == numbers.next,
        Entry::Park {
            t,
            n,
            place,
            uses,
            ..
        } => may_park(here, t, n, place, uses),
        Entry::Take { id, uses, .. } => here.face == Some(Face { id, uses }),
        Entry::Close { .. } => here.held,
        Entry::Round { k, old, .. } => old == numbers.round && old < k,
        _ => true,
    }
}

/// The first mark that is no step of the connection table. It takes no memory, and looks each mark up from the end of those
/// before it.
pub fn first_illegal(marks: &[Entry]) -> Option<usize>
    ensures { MatchOption result (HoldsOfEach (IsStepAt marks.now) marks.now)
        (λ k. FailsFirst (IsStepAt marks.now) marks.now k) }
{
    let mut numbers = FIRST;
    for (k, mark) in marks.iter().enumerate() {
        if !is_step(here_by_marks(&marks[..k], *mark), numbers, *mark) {
            return Some(k);
        }
        numbers = numbers.after(*mark);
    }
    None
}

/// The same, by tables. The one error is want of memory.
pub fn first_illegal_by_tables(alloc: Global, marks: &[Entry]) -> Result<Option<usize>, NoMemory>
    ensures { IfOk result (λ first. MatchOption first (HoldsOfEach (IsStepAt marks.now) marks.now)
        (λ k. FailsFirst (IsStepAt marks.now) marks.now k)) }
{
    let mut lasts = Lasts::new(alloc);
    let mut numbers = FIRST;
    for (k, mark) in marks.iter().enumerate() {
        if !is_step(here_by_tables(&lasts, *mark), numbers, *mark) {
            return Ok(Some(k));
        }
        lasts.note(*mark)?;
        numbers = numbers.after(*mark);
    }
    Ok(None)
}
