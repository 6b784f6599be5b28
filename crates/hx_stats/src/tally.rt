//! Counting entries and adding totals up.
ghost use Rattle.std.specs.Prelude.{◌≡◌};

use hx_base::Totals;
use hx_pool::Entry;
use hx_resting::{NO_TOTALS, with_counted};

/// Totals that are counted from entries, and added to. Each number stops at u64's greatest.
pub trait Tally {
    ghost use Rattle.hx_base.specs.declared.totals.Totals.{Totals};
    ghost use Rattle.hx_pool.specs.Totals.{totals_of};
    ghost use Rattle.hx_stats.specs.Sums.{sum_of};

    // Its numbers.
    ghost totals: { Self → Totals };

    /// The totals of the entries.
    fn of(entries: &[Entry]) -> Self
        ensures counts { totals result ≡ totals_of entries.now };

    /// Adds the other's numbers to its own.
    fn add(&mut self, other: &Self)
        ensures adds { totals self.new ≡ sum_of (totals self.old) (totals other.now) };
}

impl Tally for Totals {
    ghost totals = { λ t. t };

    fn of(entries: &[Entry]) -> Totals {
        let mut totals = NO_TOTALS;
        for entry in entries {
            totals = with_counted(totals, *entry);
        }
        totals
    }

    fn add(&mut self, other: &Totals) {
        self.opened = self.opened.saturating_add(other.opened);
        self.parked = self.parked.saturating_add(other.parked);
        self.taken = self.taken.saturating_add(other.taken);
        self.over = self.over.saturating_add(other.over);
        self.care = self.care.saturating_add(other.care);
        self.closed = self.closed.saturating_add(other.closed);
    }
}
