//! Drains: every connection that rests is closed, and none is parked any more.
ghost use Rattle.std.specs.Prelude.{◌≡◌, ◌*◌, ℕ, [], ◌∷◌, List, Option, Some, MatchOption, true, false};
ghost use Rattle.hx_pool.specs.declared.entries.Entry.TheVariants.{SetGate};
ghost use Rattle.hx_pool.specs.Causes.{caretaker};
ghost use Rattle.hx_pool.specs.Drain.{DrainsOne, DrainsNone};
ghost use Rattle.hx_pool.specs.Opening.{SetsDrain, SetsReady};
ghost use Rattle.hx_pool.specs.SeatView.{Grows};
ghost use Rattle.hx_places.specs.Seats.{history_of};
ghost use Rattle.hx_rows.specs.declared.stays.Stay.{Stay};
ghost use Rattle.hx_rows.specs.Row.{IsRowOf, KeepsCount, NeverOverMax};
ghost use Rattle.hx_rows.specs.Steps.{IsAtRest};
ghost use Rattle.hx_takeover.specs.Takeover.{GrowsBy};
ghost use Rattle.hx_purge.specs.Drains.{Drains, IsEmptied};

use crate::sweep::sweep;
use hx_base::Faced;
use hx_places::PlaceSeat;
use hx_resting::ROW;
use hx_takeover::Over;

/// Sets the server draining. The seat's drain begins anew: it has passed no place.
pub fn set_drain<V: Faced>(seat: &mut PlaceSeat<'_, V>)
    requires rest { IsAtRest seat.old }
    ensures answer { (passed : Option ℕ) → SetsDrain (history_of seat.old passed)
        (history_of seat.new (Some 0)) }
    ensures drains { Drains seat.new (Some 0) }
    ensures grows { (passed : Option ℕ) → Grows (history_of seat.old passed)
        (history_of seat.new (Some 0)) (SetGate seat.old.view.thread true ∷ []) }
    ensures limit { NeverOverMax seat.new }
    ensures count { KeepsCount seat.new }
    // The thread's own row is as it was, and can be used again.
    ensures row { (stays : List Stay) → IsRowOf stays seat.old → IsRowOf stays seat.new }
    ensures rest { IsAtRest seat.new }
{
    seat.set_gate(true);
}

/// Sets the server ready. The seat's drain stands where it stood.
pub fn set_ready<V: Faced>(seat: &mut PlaceSeat<'_, V>)
    requires rest { IsAtRest seat.old }
    ensures answer { (passed : Option ℕ) → SetsReady (history_of seat.old passed)
        (history_of seat.new passed) }
    ensures drains { (passed : Option ℕ) → Drains seat.old passed → Drains seat.new passed }
    ensures grows { (passed : Option ℕ) → Grows (history_of seat.old passed)
        (history_of seat.new passed) (SetGate seat.old.view.thread false ∷ []) }
    ensures limit { NeverOverMax seat.new }
    ensures count { KeepsCount seat.new }
    // The thread's own row is as it was, and can be used again.
    ensures row { (stays : List Stay) → IsRowOf stays seat.old → IsRowOf stays seat.new }
    ensures rest { IsAtRest seat.new }
{
    seat.set_gate(false);
}

/// Takes one of the connections that rest at the server which this seat set draining. `passed`: how
/// many places its drain has passed since then. None: every place was passed, or the seat did not
/// set it draining. What another thread took meanwhile is passed.
pub fn drain_next<V: Faced>(
    seat: &mut PlaceSeat<'_, V>,
    passed: &mut Option<u16>,
) -> Option<Over<V>>
    requires drains { Drains seat.old passed.old }
    requires rest { IsAtRest seat.old }
    ensures answer { MatchOption result
        (DrainsNone (history_of seat.old passed.old) (history_of seat.new passed.new))
        (λ o. DrainsOne (history_of seat.old passed.old) (history_of seat.new passed.new)
        (V.shows o.v)) }
    ensures drains { Drains seat.new passed.new }
    // Once every place was passed, nothing rests but parks under way.
    ensures emptied { passed.new ≡ Some (64 * seat.new.view.terms.threads)
        → IsEmptied (history_of seat.new passed.new) }
    ensures grows { MatchOption result
        (Grows (history_of seat.old passed.old) (history_of seat.new passed.new) [])
        (λ o. GrowsBy (history_of seat.old passed.old) (history_of seat.new passed.new)
        caretaker false o.place (V.shows o.v)) }
    ensures limit { NeverOverMax seat.new }
    ensures count { KeepsCount seat.new }
    // The thread's own row is as it was, and can be used again.
    ensures row { (stays : List Stay) → IsRowOf stays seat.old → IsRowOf stays seat.new }
    ensures rest { IsAtRest seat.new }
{
    seat.thread();
    let threads = seat.threads();
    let from = (*passed)?;
    match sweep(seat, from) {
        Some(swept) => {
            *passed = Some(swept.at + 1);
            Some(Over {
                place: swept.place,
                v: swept.v,
            })
        }
        None => {
            *passed = Some(ROW * threads as u16);
            None
        }
    }
}
