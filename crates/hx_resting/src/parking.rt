//! Whether a value may be parked, and where.
ghost use Rattle.std.specs.Prelude.{◌≡◌, ◌≢◌, ◌⊎◌, ◌<◌, ◌≤◌, ◌*◌, true, length, MatchOption, MatchResult};
ghost use Rattle.hx_base.specs.declared.rules.Mode.TheVariants as mode;
ghost use Rattle.hx_pool.specs.Parking.{KeepsSome};
ghost use Rattle.hx_resting.specs.Rows.{rests_of};
ghost use Rattle.hx_resting.specs.Row.{Admits, Refuses, RefusedByRules};

use crate::choice::{has_room, keeps_any};
use crate::row::look_for_vacant;
use crate::values::Rest;
use crate::writing::Desk;
use hx_base::{Faced, Mode, PoolRules, ThreadNo};
use hx_pool::{Entry, NoPark};

/// Why the rules keep no connection, whatever rests.
pub fn refused_by_rules(rules: &PoolRules) -> Option<NoPark>
    ensures { MatchOption result
        ((rules.now.mode ≢ mode.Never) × KeepsSome rules.now)
        (RefusedByRules rules.now) }
{
    if let Mode::Never = rules.mode {
        return Some(NoPark::Never);
    }
    if !keeps_any(rules) {
        return Some(NoPark::NoneKept);
    }
    None
}

/// The steps of a park before the value is published: looks up to the first vacant place, the drain
/// state, the count.
pub fn admit<D: Desk, V: Faced>(
    desk: &mut D,
    resting: &[Rest<V>],
    t: ThreadNo,
    threads: u8,
    draining: bool,
    max: Option<u32>,
) -> Result<u16, NoPark>
    requires out { (D.page desk.old).view.out ≡ true }
    requires threads { (t.0 < threads) × (threads ≤ 16) }
    requires few { length resting.now ≤ 1024 }
    ensures { MatchResult result
        (Admits (D.page desk.old) (D.page desk.new) t threads (rests_of V.shows resting.now) draining max)
        (Refuses (D.page desk.old) (D.page desk.new) t threads (rests_of V.shows resting.now) draining max) }
{
    let Some(place) = look_for_vacant(desk, resting, t, threads) else {
        return Err(NoPark::RowFull);
    };
    desk.write(Entry::Gate { t, draining });
    if draining {
        return Err(NoPark::Draining);
    }
    let count = resting.len() as u64;
    desk.write(Entry::Up { t, old: count });
    if !has_room(max, count) {
        desk.write(Entry::Down { t, old: count + 1 });
        return Err(NoPark::PoolFull(count));
    }
    Ok(place)
}
