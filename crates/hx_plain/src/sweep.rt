//! The caretaker's way through the own row.
ghost use Rattle.std.specs.Prelude.{◌≡◌, ◌+◌, ◌-◌, ◌≤◌, MatchOption, true, false};
ghost use Rattle.std.specs.Vec.{vec_capacity};
ghost use Rattle.hx_plain.specs.Row.{rests_of, Ran, Swept};

use crate::ledger::Ledger;
use crate::rest::Rest;
use crate::row::look_for_resting;
use crate::take::{Taker, leave};
use hx_base::{Faced, SessionNo, ThreadNo};

/// The session number under which a purge or a drain takes.
pub(crate) const CARETAKER: SessionNo = SessionNo(0);

pub(crate) fn caretaker_of(t: ThreadNo) -> Taker
    ensures { result ≡ record { t = t; n = record { 0 = 0 }; first = false } }
{
    Taker {
        t,
        n: CARETAKER,
        first: false,
    }
}

/// Takes the first value that rests from this place on. The number is how many vacant places were
/// passed before it.
pub(crate) fn sweep<V: Faced>(
    ledger: &mut Ledger,
    resting: &mut Vec<Rest<V>>,
    t: ThreadNo,
    from: u8,
) -> Option<(u8, Rest<V>)>
    requires { from ≤ 64 }
    ensures swept { let rests = rests_of V.shows resting.old.items in
        let left = rests_of V.shows resting.new.items in
        MatchOption result
        (Ran ledger.old ledger.new t rests from (64 - from)
        × (resting.new.items ≡ resting.old.items))
        (λ r. (r.1.place ≡ from + r.0)
        × Swept ledger.old ledger.new rests left t from r.0 (V.shows r.1.v)) }
    ensures room { vec_capacity resting.new ≡ vec_capacity resting.old }
{
    let Some((passed, i)) = look_for_resting(ledger, resting.as_slice(), t, from) else {
        return None;
    };
    let count = resting.len() as u64;
    let rest = resting.remove(i);
    let face = rest.v.face();
    leave(ledger, caretaker_of(t), rest.place, face, count);
    Some((passed, rest))
}
