//! Which connection of the other rows a takeover gets.
ghost use Rattle.std.specs.Prelude.{◌≡◌, ◌+◌, ◌*◌, ◌<◌, ◌≤◌, MatchBool, MatchOption};
ghost use Rattle.hx_pool.specs.Table.{spot_no};
ghost use Rattle.hx_pool.specs.Rules.{allows};
ghost use Rattle.hx_resting.specs.Rows.{rests_of, spot_in};
ghost use Rattle.hx_resting.specs.Row.{IsUnfit, fits as is_fit};
ghost use Rattle.hx_lockboard.specs.Order.{IsFit, IsClear, IsFirstInRow, StartsAt, spot_on};

use hx_base::{Faced, Mode, PlaceNo, ThreadNo};
use hx_pool::Found;
use hx_resting::{ROW, Rest, fits, found_at, place_at};

/// A request that looks for a connection in the rows of other threads.
#[derive(Clone, Copy)]
pub(crate) struct Request {
    pub(crate) t: ThreadNo,
    /// How many threads the board has.
    pub(crate) threads: u8,
    pub(crate) mode: Mode,
    /// It is the first of its session.
    pub(crate) first: bool,
}

/// Something of the list that is meant rests at the place, and the request may take it.
fn fits_at<V: Faced>(resting: &[Rest<V>], place: PlaceNo, request: Request, safe: bool) -> bool
    ensures { let spot = spot_in (rests_of V.shows resting.now) (spot_no place) in
        MatchBool result
        (IsFit (is_fit request.mode request.first safe) spot)
        (IsUnfit (is_fit request.mode request.first safe) spot) }
{
    match found_at(resting, ROW * place.row as u16 + place.place as u16) {
        Found::Resting(face) => fits(request.mode, request.first, safe, face.uses),
        _ => false,
    }
}

/// The least place of one list of the row that comes so many rows after the thread's own.
fn first_in_list<V: Faced>(
    resting: &[Rest<V>],
    request: Request,
    step: u8,
    safe: bool,
) -> Option<u16>
    requires threads { (request.t.0 < request.threads) × (request.threads ≤ 16) }
    requires step { step < request.threads }
    ensures { let rests = rests_of V.shows resting.now in
        let may = is_fit request.mode request.first safe in
        MatchOption result
        (IsClear request.t request.threads rests may step 64)
        (λ p. (p < 64) × IsFit may (spot_on request.t request.threads rests step p)
        × IsClear request.t request.threads rests may step p) }
{
    for number in 0..ROW {
        let place = place_at(request.t, request.threads, ROW * step as u16 + number);
        if fits_at(resting, place, request, safe) {
            return Some(number);
        }
    }
    None
}

/// The place of the row's first connection: a first request prefers the safe list, a later one the
/// idle list, and in a list the least place comes first.
fn first_in_row<V: Faced>(resting: &[Rest<V>], request: Request, step: u8) -> Option<u16>
    requires threads { (request.t.0 < request.threads) × (request.threads ≤ 16) }
    requires step { step < request.threads }
    ensures { let rests = rests_of V.shows resting.now in
        MatchOption result
        (IsClear request.t request.threads rests (allows request.mode request.first) step 64)
        (λ p. IsFirstInRow request.t request.threads rests request.mode request.first step p) }
{
    if let Some(number) = first_in_list(resting, request, step, request.first) {
        return Some(number);
    }
    first_in_list(resting, request, step, !request.first)
}

/// The place where a takeover begins, in the order of the thread: that of the first connection in
/// the rows from the next thread's on, with wrap. Where they have none for the request it is the
/// first place behind the thread's own row.
pub(crate) fn start_of<V: Faced>(resting: &[Rest<V>], request: Request) -> u16
    requires threads { (request.t.0 < request.threads) × (request.threads ≤ 16) }
    ensures inside { (64 ≤ result) × (result ≤ 64 * request.threads) }
    ensures starts { StartsAt request.t request.threads (rests_of V.shows resting.now)
        request.mode request.first result }
{
    for step in 1..request.threads {
        if let Some(number) = first_in_row(resting, request, step) {
            return ROW * step as u16 + number;
        }
    }
    ROW
}
