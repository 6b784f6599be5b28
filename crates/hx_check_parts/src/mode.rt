//! The second rule: the mode lets each mark be.
ghost use Rattle.std.specs.Prelude.{◌≡◌, ℕ, ◌↔◌, IsTrue, MatchOption};
ghost use Rattle.hx_pool.specs.Rules.{allows};
ghost use Rattle.hx_check_parts.specs.Each.{HoldsOfEach, FailsFirst};
ghost use Rattle.hx_check_parts.specs.Marks.{IsAllowed, IsAllowedAt};

use hx_base::{Mode, PoolRules, SessionNo};
use hx_pool::Entry;

fn allows(mode: Mode, first: bool, uses: u16) -> bool
    ensures { result ≡ allows mode first uses }
{
    match mode {
        Mode::Never => false,
        Mode::Safe => !first,
        Mode::Aggressive => !first || uses >= 2,
        Mode::Always => true,
    }
}

fn is_allowed(rules: PoolRules, mark: Entry) -> bool
    ensures { IsTrue result ↔ IsAllowed rules mark }
{
    match mark {
        Entry::Park { .. } => rules.mode != Mode::Never,
        Entry::Take { n, first, uses, .. } => {
            n == SessionNo(0) || allows(rules.mode, first, uses)
        }
        _ => true,
    }
}

/// The first mark that the mode doesn't let be.
pub fn first_against_mode(rules: PoolRules, marks: &[Entry]) -> Option<usize>
    ensures { MatchOption result (HoldsOfEach (IsAllowedAt rules) marks.now)
        (λ k. FailsFirst (IsAllowedAt rules) marks.now k) }
{
    for (k, mark) in marks.iter().enumerate() {
        if !is_allowed(rules, *mark) {
            return Some(k);
        }
    }
    None
}
