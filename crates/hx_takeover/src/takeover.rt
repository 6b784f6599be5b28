//! Taking a connection over (HAProxy 2.4 Configuration Manual, section 5.2: pool-low-conn).
ghost use Rattle.std.specs.Prelude.{◌≢◌, ℕ, ◌<◌, ◌≤◌, List, [], Option, IfOk, MatchBool, MatchResult};
ghost use Rattle.hx_base.specs.declared.numbers.PlaceNo.{PlaceNo};
ghost use Rattle.hx_pool.specs.SeatView.{Grows};
ghost use Rattle.hx_pool.specs.Takeover.{TakesOver, RefusesTakeover};
ghost use Rattle.hx_places.specs.Seats.{history_of};
ghost use Rattle.hx_rows.specs.declared.stays.Stay.{Stay};
ghost use Rattle.hx_rows.specs.Row.{IsRowOf, KeepsCount, NeverOverMax};
ghost use Rattle.hx_rows.specs.Steps.{IsAtRest};
ghost use Rattle.hx_takeover.specs.Takeover.{TakesInOrder, GrowsBy};

use crate::scan::{Over, scan_rows};
use hx_base::{Faced, SessionNo};
use hx_places::PlaceSeat;
use hx_pool::NoneOver;
use hx_resting::allows_some;

/// So few rest that nothing is taken over.
fn is_below(low: u32, count: u64) -> bool
    ensures { MatchBool result (count < low) (low ≤ count) }
{
    count < low as u64
}

/// Takes a connection that session `n` may use from the row of another thread, where at least the
/// least number of connections rest by the count. `first`: it is the session's first request. Rows
/// are visited from the next thread on, with wrap; in each row the list that the request prefers
/// comes first, and in a list the least place. What another thread took meanwhile is passed.
pub fn find_over<V: Faced>(
    seat: &mut PlaceSeat<'_, V>,
    n: SessionNo,
    first: bool,
) -> Result<Over<V>, NoneOver>
    requires session { n.0 ≢ 0 }
    requires rest { IsAtRest seat.old }
    ensures answer { (passed : Option ℕ) → MatchResult result
        (λ o. TakesOver (history_of seat.old passed) (history_of seat.new passed)
        n first (V.shows o.v))
        (λ why. RefusesTakeover (history_of seat.old passed) (history_of seat.new passed)
        first why) }
    ensures order { IfOk result
        (λ o. TakesInOrder seat.old seat.new n first o.place (V.shows o.v)) }
    ensures grows { (passed : Option ℕ) → MatchResult result
        (λ o. GrowsBy (history_of seat.old passed) (history_of seat.new passed)
        n first o.place (V.shows o.v))
        (λ why. Grows (history_of seat.old passed) (history_of seat.new passed) []) }
    ensures limit { NeverOverMax seat.new }
    ensures count { KeepsCount seat.new }
    // The thread's own row is as it was, and can be used again.
    ensures row { (stays : List Stay) → IsRowOf stays seat.old → IsRowOf stays seat.new }
    ensures rest { IsAtRest seat.new }
{
    let own = seat.thread();
    let rules = seat.rules();
    if !allows_some(rules.mode, first) {
        return Err(NoneOver::NotAllowed);
    }
    let count = seat.count();
    if is_below(rules.low, count) {
        return Err(NoneOver::BelowLow(count));
    }
    match scan_rows(seat, n, first, own.0) {
        Some(over) => Ok(over),
        None => Err(NoneOver::NoneSeen),
    }
}

/// The same as `find_over`, and the connection alone.
pub fn take_over<V: Faced>(
    seat: &mut PlaceSeat<'_, V>,
    n: SessionNo,
    first: bool,
) -> Result<V, NoneOver>
    requires session { n.0 ≢ 0 }
    requires rest { IsAtRest seat.old }
    ensures answer { (passed : Option ℕ) → MatchResult result
        (λ v. TakesOver (history_of seat.old passed) (history_of seat.new passed)
        n first (V.shows v))
        (λ why. RefusesTakeover (history_of seat.old passed) (history_of seat.new passed)
        first why) }
    ensures order { IfOk result
        (λ v. (place : PlaceNo) × TakesInOrder seat.old seat.new n first place (V.shows v)) }
    ensures limit { NeverOverMax seat.new }
    ensures count { KeepsCount seat.new }
    // The thread's own row is as it was, and can be used again.
    ensures row { (stays : List Stay) → IsRowOf stays seat.old → IsRowOf stays seat.new }
    ensures rest { IsAtRest seat.new }
{
    match find_over(seat, n, first) {
        Ok(over) => Ok(over.v),
        Err(why) => Err(why),
    }
}
