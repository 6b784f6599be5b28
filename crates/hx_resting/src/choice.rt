//! Which connections a request may take, and what the rules leave room for.
ghost use Rattle.std.specs.Prelude.{◌≡◌, ℕ, ◌<◌, ◌≤◌, ◌⊎◌, true, false, MatchBool, IfSome};
ghost use Rattle.hx_pool.specs.Rules.{allows};
ghost use Rattle.hx_pool.specs.Parking.{KeepsSome};
ghost use Rattle.hx_resting.specs.Row.{fits as is_fit};

use hx_base::{Mode, PoolRules};
use hx_pool::allowed;

/// The request may take it, and it is in the list that is meant.
pub fn fits(mode: Mode, first: bool, safe: bool, uses: u16) -> bool
    ensures { result ≡ is_fit mode first safe uses }
{
    if !allowed(mode, first, uses) {
        return false;
    }
    if safe { uses >= 2 } else { uses < 2 }
}

/// The request may take a connection of some use count.
pub fn allows_some(mode: Mode, first: bool) -> bool
    ensures { MatchBool result
        ((u : ℕ) × (allows mode first u ≡ true))
        ((u : ℕ) → allows mode first u ≡ false) }
{
    match mode {
        Mode::Never => false,
        Mode::Safe => !first,
        Mode::Aggressive => true,
        Mode::Always => true,
    }
}

/// The rules keep a connection at all.
pub fn keeps_any(rules: &PoolRules) -> bool
    ensures { MatchBool result
        (KeepsSome rules.now)
        ((rules.now.max ≡ Some 0) ⊎ (rules.now.delay.0 ≡ 0)) }
{
    rules.max != Some(0) && rules.delay.0 != 0
}

/// One more connection may rest beside this count.
pub fn has_room(max: Option<u32>, count: u64) -> bool
    ensures { MatchBool result
        (IfSome max (λ m. count < m))
        ((m : ℕ) × (max ≡ Some m) × (m ≤ count)) }
{
    match max {
        Some(m) => count < m as u64,
        None => true,
    }
}
