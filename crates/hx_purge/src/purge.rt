//! Purges (HAProxy 2.4 Configuration Manual, section 5.2: pool-purge-delay).
ghost use Rattle.std.specs.Prelude.{ℕ, [], ◌∷◌, List, Option, MatchOption, false};
ghost use Rattle.hx_pool.specs.declared.entries.Entry.TheVariants.{Round};
ghost use Rattle.hx_pool.specs.Causes.{caretaker};
ghost use Rattle.hx_pool.specs.Purge.{GivesQuota, GivesNoQuota, StandsAt, PurgesOne, PurgesNone, KeepsQuota};
ghost use Rattle.hx_pool.specs.SeatView.{Grows};
ghost use Rattle.hx_places.specs.Seats.{about, history_of};
ghost use Rattle.hx_rows.specs.declared.stays.Stay.{Stay};
ghost use Rattle.hx_rows.specs.Row.{IsRowOf, KeepsCount, NeverOverMax};
ghost use Rattle.hx_rows.specs.Steps.{IsAtRest};
ghost use Rattle.hx_takeover.specs.Takeover.{GrowsBy};

use crate::sweep::sweep;
use hx_base::{Faced, Millis};
use hx_places::PlaceSeat;
use hx_pool::Quota;
use hx_resting::{ROW, quota_after, quota_at};
use hx_takeover::Over;

/// A new purge interval, and how many connections are to be closed.
#[derive(Clone, Copy, PartialEq, Eq, Debug)]
pub struct NewInterval {
    /// How many whole intervals have passed.
    pub round: u64,
    /// How many had passed when a seat last raised the interval.
    pub before: u64,
    pub quota: Quota,
}

/// Raises the purge interval to that of `now`. A quota, where it was below.
pub fn due<V: Faced>(seat: &mut PlaceSeat<'_, V>, now: Millis) -> Option<NewInterval>
    requires rest { IsAtRest seat.old }
    ensures answer { (passed : Option ℕ) → MatchOption result
        (GivesNoQuota (history_of seat.old passed) (history_of seat.new passed) now)
        (λ d. GivesQuota (history_of seat.old passed) (history_of seat.new passed)
        now d.quota) }
    ensures grows { (passed : Option ℕ) → MatchOption result
        (Grows (history_of seat.old passed) (history_of seat.new passed) [])
        (λ d. Grows (history_of seat.old passed) (history_of seat.new passed)
        (Round seat.old.view.thread d.round d.before ∷ [])) }
    ensures limit { NeverOverMax seat.new }
    ensures count { KeepsCount seat.new }
    // The thread's own row is as it was, and can be used again.
    ensures row { (stays : List Stay) → IsRowOf stays seat.old → IsRowOf stays seat.new }
    ensures rest { IsAtRest seat.new }
{
    let t = seat.thread();
    let delay = seat.rules().delay.0;
    if delay == 0 {
        return None;
    }
    let round = now.0.saturating_sub(seat.start().0) / delay;
    let before = seat.raise(round);
    if before >= round {
        return None;
    }
    let count = seat.count();
    Some(NewInterval {
        round,
        before,
        quota: quota_after(t, count, round - before),
    })
}

/// Takes one of the connections that the quota says. None: as many were taken, or every place was
/// passed. What another thread took meanwhile is passed.
pub fn purge_next<V: Faced>(seat: &mut PlaceSeat<'_, V>, quota: &mut Quota) -> Option<Over<V>>
    requires stands { StandsAt (about seat.old) quota.old }
    requires rest { IsAtRest seat.old }
    ensures answer { (passed : Option ℕ) → MatchOption result
        (PurgesNone (history_of seat.old passed) (history_of seat.new passed)
        quota.old quota.new)
        (λ o. PurgesOne (history_of seat.old passed) (history_of seat.new passed)
        quota.old quota.new (V.shows o.v)) }
    ensures quota { (passed : Option ℕ) → KeepsQuota (history_of seat.old passed)
        (history_of seat.new passed) quota.old quota.new }
    ensures grows { (passed : Option ℕ) → MatchOption result
        (Grows (history_of seat.old passed) (history_of seat.new passed) [])
        (λ o. GrowsBy (history_of seat.old passed) (history_of seat.new passed)
        caretaker false o.place (V.shows o.v)) }
    ensures limit { NeverOverMax seat.new }
    ensures count { KeepsCount seat.new }
    // The thread's own row is as it was, and can be used again.
    ensures row { (stays : List Stay) → IsRowOf stays seat.old → IsRowOf stays seat.new }
    ensures rest { IsAtRest seat.new }
{
    let t = seat.thread();
    let threads = seat.threads();
    if quota.left == 0 {
        return None;
    }
    match sweep(seat, quota.seen as u16) {
        Some(swept) => {
            *quota = quota_at(t, threads, quota.left - 1, swept.at + 1);
            Some(Over {
                place: swept.place,
                v: swept.v,
            })
        }
        None => {
            quota.seen = ROW as u32 * threads as u32;
            None
        }
    }
}
