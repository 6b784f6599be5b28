//! Taking a value out of the rows.
ghost use Rattle.std.specs.Prelude.{◌≡◌, ◌+◌, ◌-◌, ◌*◌, ◌<◌, ◌≤◌, length, true, false, MatchOption};
ghost use Rattle.std.specs.Vec.{vec_capacity};
ghost use Rattle.hx_pool.specs.Taking.{taking};
ghost use Rattle.hx_resting.specs.Desks.{adds_notes};
ghost use Rattle.hx_resting.specs.Rows.{rests_of, Rested};
ghost use Rattle.hx_resting.specs.Row.{NoneFits, Ran, Swept, TookAt, TookBest, is_wanted};

use crate::row::{Wanted, best, look_for_wanted};
use crate::values::Rest;
use crate::writing::Desk;
use hx_base::{Face, Faced, Mode, PlaceNo, SessionNo, ThreadNo};
use hx_pool::Entry;

/// Who takes, and for which request.
#[derive(Clone, Copy)]
pub struct Taker {
    pub t: ThreadNo,
    pub n: SessionNo,
    /// The request is the first of its session.
    pub first: bool,
}

pub fn take_entry(taker: Taker, place: PlaceNo, face: Face) -> Entry
    ensures { result ≡ Entry.Take taker.t taker.n taker.first place face.id face.uses }
{
    Entry::Take {
        t: taker.t,
        n: taker.n,
        first: taker.first,
        place,
        id: face.id,
        uses: face.uses,
    }
}

/// The steps of a take: the place is taken, freed, and the count goes down.
fn leave<D: Desk>(desk: &mut D, taker: Taker, place: PlaceNo, face: Face, count: u64)
    requires out { (D.page desk.old).view.out ≡ true }
    ensures { D.page desk.new
        ≡ adds_notes (D.page desk.old) (taking taker.t taker.n taker.first place face count) }
{
    let t = taker.t;
    desk.write(take_entry(taker, place, face));
    desk.write(Entry::Free { t, place });
    desk.write(Entry::Down { t, old: count });
}

/// Takes the value at an index.
fn take_at<D: Desk, V: Faced>(
    desk: &mut D,
    resting: &mut Vec<Rest<V>>,
    taker: Taker,
    i: usize,
) -> Rest<V>
    requires out { (D.page desk.old).view.out ≡ true }
    requires inside { i < length resting.old.items }
    ensures took { TookAt (D.page desk.old) (D.page desk.new)
        (rests_of V.shows resting.old.items) (rests_of V.shows resting.new.items)
        taker.t taker.n taker.first i
        (record { place = result.place; shown = V.shows result.v }) }
    ensures room { vec_capacity resting.new ≡ vec_capacity resting.old }
{
    let count = resting.len() as u64;
    let rest = resting.remove(i);
    let face = rest.v.face();
    leave(desk, taker, rest.place, face, count);
    rest
}

/// Takes the value of the own row that the request likes best.
pub fn take_best<D: Desk, V: Faced>(
    desk: &mut D,
    resting: &mut Vec<Rest<V>>,
    taker: Taker,
    mode: Mode,
) -> Option<Rest<V>>
    requires out { (D.page desk.old).view.out ≡ true }
    ensures took { let rests = rests_of V.shows resting.old.items in
        let left = rests_of V.shows resting.new.items in
        MatchOption result
        (NoneFits mode taker.first true taker.t.0 rests
        × NoneFits mode taker.first false taker.t.0 rests
        × (resting.new.items ≡ resting.old.items) × (D.page desk.new ≡ D.page desk.old))
        (λ r. TookBest (D.page desk.old) (D.page desk.new) rests left
        taker.t taker.n taker.first mode (record { place = r.place; shown = V.shows r.v })) }
    ensures room { vec_capacity resting.new ≡ vec_capacity resting.old }
{
    let Some(i) = best(resting.as_slice(), taker.t.0, mode, taker.first) else {
        return None;
    };
    Some(take_at(desk, resting, taker, i))
}

/// Takes the first value that is wanted from this place on, in the thread's order. The number is how
/// many places were passed before it.
pub fn sweep<D: Desk, V: Faced>(
    desk: &mut D,
    resting: &mut Vec<Rest<V>>,
    taker: Taker,
    threads: u8,
    wanted: Wanted,
    from: u16,
) -> Option<(u16, Rest<V>)>
    requires out { (D.page desk.old).view.out ≡ true }
    requires threads { (taker.t.0 < threads) × (threads ≤ 16) × (from ≤ 64 * threads) }
    ensures swept { let rests = rests_of V.shows resting.old.items in
        let left = rests_of V.shows resting.new.items in
        MatchOption result
        (Ran (D.page desk.old) (D.page desk.new) taker.t threads (is_wanted wanted) rests
        from (64 * threads - from) × (resting.new.items ≡ resting.old.items))
        (λ r. (from + r.0 < 64 * threads)
        × Swept (D.page desk.old) (D.page desk.new) rests left taker.t threads taker.n taker.first
        (is_wanted wanted) from r.0 (record { place = r.1.place; shown = V.shows r.1.v })) }
    ensures room { vec_capacity resting.new ≡ vec_capacity resting.old }
{
    let slice = resting.as_slice();
    let Some((passed, i)) = look_for_wanted(desk, slice, taker.t, threads, wanted, from) else {
        return None;
    };
    let rest = take_at(desk, resting, taker, i);
    Some((passed, rest))
}
