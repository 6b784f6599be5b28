//! Whether a value may be parked, and where.
ghost use Rattle.std.specs.Prelude.{◌≡◌, MatchResult};
ghost use Rattle.hx_plain.specs.Row.{rests_of, Admits, Refuses};

use crate::ledger::Ledger;
use crate::rest::Rest;
use crate::row::look_for_vacant;
use hx_base::{Faced, ThreadNo};
use hx_pool::{Entry, NoPark};
use hx_resting::has_room;

/// The steps of a park before the value is published: looks up to the first vacant place, the drain
/// state, the count.
pub(crate) fn admit<V: Faced>(
    ledger: &mut Ledger,
    resting: &[Rest<V>],
    t: ThreadNo,
    draining: bool,
    max: Option<u32>,
) -> Result<u8, NoPark>
    ensures { MatchResult result
        (Admits ledger.old ledger.new t (rests_of V.shows resting.now) draining max)
        (Refuses ledger.old ledger.new t (rests_of V.shows resting.now) draining max) }
{
    let Some(place) = look_for_vacant(ledger, resting, t) else {
        return Err(NoPark::RowFull);
    };
    ledger.write(Entry::Gate { t, draining });
    if draining {
        return Err(NoPark::Draining);
    }
    let count = resting.len() as u64;
    ledger.write(Entry::Up { t, old: count });
    if !has_room(max, count) {
        ledger.write(Entry::Down { t, old: count + 1 });
        return Err(NoPark::PoolFull(count));
    }
    Ok(place)
}
