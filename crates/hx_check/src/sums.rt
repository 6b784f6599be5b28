//! The sixth rule: the totals are those of the marks.
ghost use Rattle.std.specs.Prelude.{◌≡◌, ◌↔◌, IsTrue, MatchOption};
ghost use Rattle.hx_pool.specs.Totals.{totals_of};
ghost use Rattle.hx_check_parts.specs.Each.{HoldsOfEach, FailsFirst};
ghost use Rattle.hx_check.specs.Rules.{SumIn};

use hx_base::Totals;
use hx_check_parts::sums_of;
use hx_script::ServerPart;

fn are_same(a: Totals, b: Totals) -> bool
    ensures { IsTrue result ↔ (a ≡ b) }
{
    a == b
}

fn part_holds(part: &ServerPart, totals: Totals) -> bool
    ensures { IsTrue result ↔ (totals ≡ totals_of part.now.marks) }
{
    are_same(totals, sums_of(part.marks.as_slice()))
}

/// Whether they are those of the server's marks.
fn sum_holds(servers: &[ServerPart], k: usize, totals: Totals) -> bool
    ensures { IsTrue result ↔ SumIn servers.now k totals }
{
    match servers.get(k) {
        None => true,
        Some(part) => part_holds(part, totals),
    }
}

/// The first totals that are not those of their server's marks.
pub(crate) fn first_sum(servers: &[ServerPart], totals: &[Totals]) -> Option<usize>
    ensures { MatchOption result (HoldsOfEach (SumIn servers.now) totals.now)
        (λ k. FailsFirst (SumIn servers.now) totals.now k) }
{
    for (k, sums) in totals.iter().enumerate() {
        if !sum_holds(servers, k, *sums) {
            return Some(k);
        }
    }
    None
}
