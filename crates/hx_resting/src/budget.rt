//! How many connections a seat may open, and how many a purge interval closes.
ghost use Rattle.std.specs.Prelude.{◌≡◌, ◌*◌, ◌<◌, ◌≤◌};
ghost use Rattle.hx_pool.specs.Opening.{open_limit};
ghost use Rattle.hx_pool.specs.Purge.{quota_of};
ghost use Rattle.hx_pool.specs.Causes.{place_of, nth_place};

use crate::row::{ROW, place_at};
use hx_base::{PlaceNo, ThreadNo};
use hx_pool::Quota;

/// How many connections a seat may open, so that sixteen stay below 2^40 together.
pub fn most_opens(t: ThreadNo) -> u64
    ensures { result ≡ open_limit t }
{
    if t.0 == 15 {
        68_719_476_735
    } else {
        68_719_476_736
    }
}

/// How many of these resting connections are to be closed after so many intervals: each leaves half
/// of the rest.
pub fn quota_after(t: ThreadNo, count: u64, intervals: u64) -> Quota
    ensures { result
        ≡ record { left = quota_of count intervals; row = t.0; place = 0; seen = 0 } }
{
    Quota {
        left: count - (count >> intervals.min(63)),
        row: t.0,
        place: 0,
        seen: 0,
    }
}

/// A quota that has passed so many places.
pub fn quota_at(t: ThreadNo, threads: u8, left: u64, seen: u16) -> Quota
    requires { (t.0 < threads) × (threads ≤ 16) × (seen ≤ 64 * threads) }
    ensures { (result.left ≡ left) × (result.seen ≡ seen)
        × (seen < 64 * threads → place_of result.row result.place ≡ nth_place t threads seen) }
{
    let mut at = PlaceNo { row: t.0, place: 0 };
    if seen < ROW * threads as u16 {
        at = place_at(t, threads, seen);
    }
    Quota {
        left,
        row: at.row,
        place: at.place,
        seen: seen as u32,
    }
}
