//! The sixth rule: the totals are those of the marks.
ghost use Rattle.std.specs.Prelude.{◌≡◌};
ghost use Rattle.hx_pool.specs.Totals.{totals_after, totals_of};

use hx_base::{SessionNo, Totals};
use hx_pool::Entry;

const NONE: Totals = Totals {
    opened: 0,
    parked: 0,
    taken: 0,
    over: 0,
    care: 0,
    closed: 0,
};

/// The totals after a mark.
fn after(totals: Totals, mark: Entry) -> Totals
    ensures { result ≡ totals_after totals mark }
{
    let mut totals = totals;
    match mark {
        Entry::Open { .. } => totals.opened = totals.opened.saturating_add(1),
        Entry::Park { .. } => totals.parked = totals.parked.saturating_add(1),
        Entry::Take { t, n, place, .. } => {
            if n == SessionNo(0) {
                totals.care = totals.care.saturating_add(1);
            } else if place.row == t.0 {
                totals.taken = totals.taken.saturating_add(1);
            } else {
                totals.over = totals.over.saturating_add(1);
            }
        }
        Entry::Close { .. } => totals.closed = totals.closed.saturating_add(1),
        _ => {}
    }
    totals
}

/// How often each thing was done, by the marks.
pub fn sums_of(marks: &[Entry]) -> Totals
    ensures { result ≡ totals_of marks.now }
{
    let mut totals = NONE;
    for mark in marks {
        totals = after(totals, *mark);
    }
    totals
}
