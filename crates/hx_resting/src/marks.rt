//! The marks of a call, and how often each was made.
ghost use Rattle.std.specs.Prelude.{◌≡◌, [], ◌∷◌};
ghost use Rattle.hx_pool.specs.SeatView.{last_list};
ghost use Rattle.hx_pool.specs.Totals.{totals_after};

use hx_base::Totals;
use hx_pool::{Entry, LastMarks};

pub const NO_MARKS: LastMarks = LastMarks {
    first: None,
    second: None,
};

pub const NO_TOTALS: Totals = Totals {
    opened: 0,
    parked: 0,
    taken: 0,
    over: 0,
    care: 0,
    closed: 0,
};

pub fn one_mark(entry: Entry) -> LastMarks
    ensures { last_list result ≡ entry ∷ [] }
{
    LastMarks {
        first: Some(entry),
        second: None,
    }
}

/// The totals with this entry counted.
pub fn with_counted(totals: Totals, entry: Entry) -> Totals
    ensures { result ≡ totals_after totals entry }
{
    let mut totals = totals;
    match entry {
        Entry::Open { .. } => totals.opened = totals.opened.saturating_add(1),
        Entry::Park { .. } => totals.parked = totals.parked.saturating_add(1),
        Entry::Take { t, n, place, .. } => {
            if n.0 == 0 {
                totals.care = totals.care.saturating_add(1);
            } else if place.row == t.0 {
                totals.taken = totals.taken.saturating_add(1);
            } else {
                totals.over = totals.over.saturating_add(1);
            }
        }
        Entry::Close { .. } => totals.closed = totals.closed.saturating_add(1),
        _ => {}
    }
    totals
}
