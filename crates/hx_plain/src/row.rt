//! Looking through the own row.
ghost use Rattle.std.specs.Prelude.{◌≡◌, ◌+◌, ◌-◌, ◌<◌, ◌≤◌, MatchOption, true, false};
ghost use Rattle.hx_pool.specs.Table.{found_of, Vacant};
ghost use Rattle.hx_plain.specs.Row.{rests_of, spot_in, NoneFits, LastFits, BestFits, Scanned, CutAt, Ran};

use crate::ledger::Ledger;
use crate::rest::Rest;
use hx_base::{Faced, Mode, PlaceNo, ThreadNo};
use hx_pool::{Entry, Found};
use hx_resting::fits;

/// How many places a row has.
pub(crate) const ROW: u8 = 64;

pub(crate) fn found_at<V: Faced>(resting: &[Rest<V>], place: u8) -> Found
    ensures { result ≡ found_of (spot_in (rests_of V.shows resting.now) place) }
{
    for rest in resting {
        if rest.place == place {
            return Found::Resting(rest.v.face());
        }
    }
    Found::Empty
}

fn last_in<V: Faced>(resting: &[Rest<V>], mode: Mode, first: bool, safe: bool) -> Option<usize>
    ensures { MatchOption result
        (NoneFits mode first safe (rests_of V.shows resting.now))
        (LastFits mode first safe (rests_of V.shows resting.now)) }
{
    let mut i = resting.len();
    while i > 0 {
        i -= 1;
        if fits(mode, first, safe, resting[i].v.face().uses) {
            return Some(i);
        }
    }
    None
}

/// A first request looks at the safe list first, a later one at the idle list. The one parked last
/// comes first.
pub(crate) fn best<V: Faced>(resting: &[Rest<V>], mode: Mode, first: bool) -> Option<usize>
    ensures { let rests = rests_of V.shows resting.now in
        MatchOption result
        (NoneFits mode first true rests × NoneFits mode first false rests)
        (BestFits mode first rests) }
{
    if let Some(i) = last_in(resting, mode, first, first) {
        return Some(i);
    }
    last_in(resting, mode, first, !first)
}

/// The least vacant place of the thread's row.
pub(crate) fn look_for_vacant<V: Faced>(
    ledger: &mut Ledger,
    resting: &[Rest<V>],
    t: ThreadNo,
) -> Option<u8>
    ensures { let rests = rests_of V.shows resting.now in
        MatchOption result
        (Scanned ledger.old ledger.new t rests 64 64)
        (λ p. Scanned ledger.old ledger.new t rests (p + 1) p
        × (p < 64) × (spot_in rests p ≡ Vacant)) }
{
    for place in 0..ROW {
        let found = found_at(resting, place);
        ledger.write(Entry::Look {
            t,
            place: PlaceNo { row: t.0, place },
            found,
        });
        if let Found::Empty = found {
            return Some(place);
        }
    }
    None
}

fn index_at<V: Faced>(resting: &[Rest<V>], place: u8) -> Option<usize>
    ensures { MatchOption result
        (spot_in (rests_of V.shows resting.now) place ≡ Vacant)
        (λ i. CutAt (rests_of V.shows resting.now) i place) }
{
    for i in 0..resting.len() {
        if resting[i].place == place {
            return Some(i);
        }
    }
    None
}

/// Looks at the places from one on, until a value rests: how many were vacant, and the value's
/// index.
pub(crate) fn look_for_resting<V: Faced>(
    ledger: &mut Ledger,
    resting: &[Rest<V>],
    t: ThreadNo,
    from: u8,
) -> Option<(u8, usize)>
    requires { from ≤ 64 }
    ensures { let rests = rests_of V.shows resting.now in
        MatchOption result
        (Ran ledger.old ledger.new t rests from (64 - from))
        (λ r. Ran ledger.old ledger.new t rests from r.0
        × (from + r.0 < 64) × CutAt rests r.1 (from + r.0)) }
{
    for count in 0..ROW - from {
        let place = from + count;
        if let Some(i) = index_at(resting, place) {
            return Some((count, i));
        }
        ledger.write(Entry::Look {
            t,
            place: PlaceNo { row: t.0, place },
            found: Found::Empty,
        });
    }
    None
}
