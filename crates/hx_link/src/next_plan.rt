//! Which plan the next dial of a server uses.
ghost use Rattle.std.specs.Prelude.{◌≡◌, ◌<◌, ◌++◌, ◌+◌, length, take, drop, slice_index_or, Some, None, MatchOption, IfSome};
ghost use Rattle.hx_link.specs.MemoryNets.{is_server, next_plan, without_next};

use hx_base::{Plan, ServerNo};

/// Whether the plan is one for that server.
fn is_for(plan: &Plan, server: ServerNo) -> bool
    ensures { result ≡ is_server server plan.now.server }
{
    match plan.server {
        None => false,
        Some(other) => other.0 == server.0,
    }
}

/// Where the server's next plan stands.
pub fn find_plan(plans: &[Plan], server: ServerNo) -> Option<usize>
    ensures found { IfSome result (λ i. i < length plans.now) }
    ensures next { MatchOption result (next_plan server plans.now ≡ None)
        (λ i. (p : Plan) → next_plan server plans.now ≡ Some (slice_index_or plans.now i p)) }
    ensures others { MatchOption result (without_next server plans.now ≡ plans.now)
        (λ i. without_next server plans.now ≡ take i plans.now ++ drop (i + 1) plans.now) }
{
    for (i, plan) in plans.iter().enumerate() {
        if is_for(plan, server) {
            return Some(i);
        }
    }
    None
}
