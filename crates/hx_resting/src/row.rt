//! Looking through the rows.
ghost use Rattle.std.specs.Prelude.{◌≡◌, ℕ, ◌+◌, ◌-◌, ◌*◌, ◌<◌, ◌≤◌, ◌||◌, MatchOption, true, false};
ghost use Rattle.hx_pool.specs.Table.{found_of, Vacant, spot_no};
ghost use Rattle.hx_pool.specs.Causes.{nth_place};
ghost use Rattle.hx_pool.specs.Rules.{allows};
ghost use Rattle.hx_resting.specs.Rows.{rests_of, spot_in};
ghost use Rattle.hx_resting.specs.Row.{NoneFits, LastFits, BestFits, Scanned, CutAt, GoodAt, IsUnfit, Ran, is_wanted, fits_in};

use crate::choice::fits;
use crate::values::Rest;
use crate::writing::Desk;
use hx_base::{Faced, Mode, PlaceNo, ThreadNo};
use hx_pool::{Entry, Found, allowed};

/// How many places a row has.
pub const ROW: u16 = 64;

/// The place that is so far in the order of a thread, which begins with its own row.
pub fn place_at(t: ThreadNo, threads: u8, q: u16) -> PlaceNo
    requires { (t.0 < threads) × (threads ≤ 16) × (q < 64 * threads) }
    ensures { result ≡ nth_place t threads q }
{
    let row = (t.0 as u16 + q / ROW) % threads as u16;
    PlaceNo {
        row: row as u8,
        place: (q % ROW) as u8,
    }
}

/// A place, counted over all rows.
pub fn number_of(place: PlaceNo) -> u16
    ensures { result ≡ spot_no place }
{
    ROW * place.row as u16 + place.place as u16
}

pub fn found_at<V: Faced>(resting: &[Rest<V>], place: u16) -> Found
    ensures { result ≡ found_of (spot_in (rests_of V.shows resting.now) place) }
{
    for rest in resting {
        if number_of(rest.place) == place {
            return Found::Resting(rest.v.face());
        }
    }
    Found::Empty
}

fn fits_at<V: Faced>(rest: &Rest<V>, row: u8, mode: Mode, first: bool, safe: bool) -> bool
    ensures { result ≡ fits_in mode first safe row
        (record { place = rest.now.place; shown = V.shows rest.now.v }) }
{
    let uses = rest.v.face().uses;
    rest.place.row == row && fits(mode, first, safe, uses)
}

fn last_in<V: Faced>(
    resting: &[Rest<V>],
    row: u8,
    mode: Mode,
    first: bool,
    safe: bool,
) -> Option<usize>
    ensures { MatchOption result
        (NoneFits mode first safe row (rests_of V.shows resting.now))
        (LastFits mode first safe row (rests_of V.shows resting.now)) }
{
    let mut i = resting.len();
    while i > 0 {
        i -= 1;
        if fits_at(&resting[i], row, mode, first, safe) {
            return Some(i);
        }
    }
    None
}

/// A first request looks at the safe list first, a later one at the idle list. The one parked last
/// comes first.
pub fn best<V: Faced>(resting: &[Rest<V>], row: u8, mode: Mode, first: bool) -> Option<usize>
    ensures { let rests = rests_of V.shows resting.now in
        MatchOption result
        (NoneFits mode first true row rests × NoneFits mode first false row rests)
        (BestFits mode first row rests) }
{
    if let Some(i) = last_in(resting, row, mode, first, first) {
        return Some(i);
    }
    last_in(resting, row, mode, first, !first)
}

/// The least vacant place of the thread's row.
pub fn look_for_vacant<D: Desk, V: Faced>(
    desk: &mut D,
    resting: &[Rest<V>],
    t: ThreadNo,
    threads: u8,
) -> Option<u16>
    requires out { (D.page desk.old).view.out ≡ true }
    requires threads { (t.0 < threads) × (threads ≤ 16) }
    ensures { let rests = rests_of V.shows resting.now in
        MatchOption result
        (Scanned (D.page desk.old) (D.page desk.new) t threads rests 64 64)
        (λ p. Scanned (D.page desk.old) (D.page desk.new) t threads rests (p + 1) p
        × (p < 64) × (spot_in rests (spot_no (nth_place t threads p)) ≡ Vacant)) }
{
    for q in 0..ROW {
        let place = place_at(t, threads, q);
        let found = found_at(resting, number_of(place));
        desk.write(Entry::Look { t, place, found });
        if let Found::Empty = found {
            return Some(q);
        }
    }
    None
}

pub fn index_at<V: Faced>(resting: &[Rest<V>], place: u16) -> Option<usize>
    ensures { MatchOption result
        (spot_in (rests_of V.shows resting.now) place ≡ Vacant)
        (λ i. CutAt (rests_of V.shows resting.now) i place) }
{
    for i in 0..resting.len() {
        if number_of(resting[i].place) == place {
            return Some(i);
        }
    }
    None
}

/// Which connections are taken: the caretaker takes each, a session what the mode allows.
#[derive(Clone, Copy)]
pub struct Wanted {
    pub all: bool,
    pub mode: Mode,
    /// The request is the first of its session.
    pub first: bool,
}

pub fn wants(wanted: Wanted, uses: u16) -> bool
    ensures { result ≡ is_wanted wanted uses }
{
    wanted.all || allowed(wanted.mode, wanted.first, uses)
}

fn wanted_at<V: Faced>(resting: &[Rest<V>], place: u16, wanted: Wanted) -> Option<usize>
    ensures { MatchOption result
        (IsUnfit (is_wanted wanted) (spot_in (rests_of V.shows resting.now) place))
        (λ i. GoodAt (is_wanted wanted) (rests_of V.shows resting.now) i place) }
{
    let Some(i) = index_at(resting, place) else {
        return None;
    };
    let uses = resting[i].v.face().uses;
    if wants(wanted, uses) { Some(i) } else { None }
}

/// Looks at the places from one on, in the thread's order, until something rests that is wanted: how
/// many had nothing, and the value's index.
pub fn look_for_wanted<D: Desk, V: Faced>(
    desk: &mut D,
    resting: &[Rest<V>],
    t: ThreadNo,
    threads: u8,
    wanted: Wanted,
    from: u16,
) -> Option<(u16, usize)>
    requires out { (D.page desk.old).view.out ≡ true }
    requires threads { (t.0 < threads) × (threads ≤ 16) × (from ≤ 64 * threads) }
    ensures { let rests = rests_of V.shows resting.now in
        MatchOption result
        (Ran (D.page desk.old) (D.page desk.new) t threads (is_wanted wanted) rests from (64 * threads - from))
        (λ r. Ran (D.page desk.old) (D.page desk.new) t threads (is_wanted wanted) rests from r.0
        × (from + r.0 < 64 * threads)
        × GoodAt (is_wanted wanted) rests r.1 (spot_no (nth_place t threads (from + r.0)))) }
{
    for count in 0..ROW * threads as u16 - from {
        let place = place_at(t, threads, from + count);
        let no = number_of(place);
        if let Some(i) = wanted_at(resting, no, wanted) {
            return Some((count, i));
        }
        let found = found_at(resting, no);
        desk.write(Entry::Look { t, place, found });
    }
    None
}
