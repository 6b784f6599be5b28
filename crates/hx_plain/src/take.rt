//! Taking a value out of the own row.
ghost use Rattle.std.specs.Prelude.{◌≡◌, ◌+◌, ◌-◌, ◌≤◌, true, false, MatchOption};
ghost use Rattle.std.specs.Vec.{vec_capacity};
ghost use Rattle.hx_pool.specs.Causes.{place_of};
ghost use Rattle.hx_pool.specs.Taking.{taking};
ghost use Rattle.hx_plain.specs.Book.{add_notes};
ghost use Rattle.hx_plain.specs.Row.{rests_of, NoneFits, TookBest};

use crate::ledger::Ledger;
use crate::rest::Rest;
use crate::row::{best, look_for_resting};
use hx_base::{Face, Faced, Mode, PlaceNo, SessionNo, ThreadNo};
use hx_pool::Entry;

/// Who takes, and for which request.
#[derive(Clone, Copy)]
pub(crate) struct Taker {
    pub t: ThreadNo,
    pub n: SessionNo,
    /// The request is the first of its session.
    pub first: bool,
}

pub(crate) fn take_entry(taker: Taker, place: u8, face: Face) -> Entry
    ensures { result
        ≡ Entry.Take taker.t taker.n taker.first (place_of taker.t.0 place) face.id face.uses }
{
    Entry::Take {
        t: taker.t,
        n: taker.n,
        first: taker.first,
        place: PlaceNo {
            row: taker.t.0,
            place,
        },
        id: face.id,
        uses: face.uses,
    }
}

/// The steps of a take: the place is taken, freed, and the count goes down.
pub(crate) fn leave(ledger: &mut Ledger, taker: Taker, place: u8, face: Face, count: u64)
    ensures { ledger.new ≡ add_notes ledger.old
        (taking taker.t taker.n taker.first (place_of taker.t.0 place) face count) }
{
    ledger.write(take_entry(taker, place, face));
    ledger.write(Entry::Free {
        t: taker.t,
        place: PlaceNo {
            row: taker.t.0,
            place,
        },
    });
    ledger.write(Entry::Down {
        t: taker.t,
        old: count,
    });
}

/// Takes the value that the request likes best.
pub(crate) fn take_best<V: Faced>(
    ledger: &mut Ledger,
    resting: &mut Vec<Rest<V>>,
    taker: Taker,
    mode: Mode,
) -> Option<Rest<V>>
    ensures took { let rests = rests_of V.shows resting.old.items in
        let left = rests_of V.shows resting.new.items in
        MatchOption result
        (NoneFits mode taker.first true rests × NoneFits mode taker.first false rests
        × (resting.new.items ≡ resting.old.items) × (ledger.new ≡ ledger.old))
        (λ r. TookBest ledger.old ledger.new rests left
        taker.t taker.n taker.first mode r.place (V.shows r.v)) }
    ensures room { vec_capacity resting.new ≡ vec_capacity resting.old }
{
    let Some(i) = best(resting.as_slice(), mode, taker.first) else {
        return None;
    };
    let count = resting.len() as u64;
    let rest = resting.remove(i);
    let face = rest.v.face();
    leave(ledger, taker, rest.place, face, count);
    Some(rest)
}
