//! The backend of each frontend, when all lines were read.
ghost use Rattle.std.specs.Prelude.{◌≡◌, ◌≤◌, ◌==◌, ◌<◌, IfSome, length, map, Some, None, Ok, bytes_eq};
ghost use Rattle.std.specs.List.{list_any};
ghost use Rattle.hx_config_parts.specs.Faults.{Leads};
ghost use Rattle.hx_config.specs.Meaning as meaning;

use crate::parts::{Back, Front};
use crate::sections::{Backend, Frontend};
use hx_config_parts::{Flaw, Rule, Stop, same};
use std::alloc::Global;

fn place_named(name: &[u8], backs: &[Backend]) -> Option<usize>
    ensures place { result ≡ meaning.place_from 0 name.now backs.now }
    ensures within { IfSome result (λ i. i < length backs.now) }
{
    for (i, b) in backs.iter().enumerate() {
        if same(b.back.name.as_slice(), name) {
            return Some(i);
        }
    }
    None
}

fn place_of(front: &Frontend, backs: &[Backend]) -> Option<usize>
    ensures place { result ≡ meaning.place_of front.now.wants backs.now }
    ensures within { IfSome result (λ i. i < length backs.now) }
{
    match &front.wants {
        None => None,
        Some(name) => place_named(name.as_slice(), backs),
    }
}

fn place(front: Frontend, backs: &[Backend]) -> Result<Front, Stop>
    requires { length backs.now ≤ 16 }
    ensures { Leads (λ f. f) result (meaning.placed backs.now front) }
{
    let Some(at) = place_of(&front, backs) else {
        return Err(Stop::At(Flaw {
            line: front.line,
            rule: Rule::NoSuchBackend,
        }));
    };
    Ok(Front {
        name: front.name,
        binds: front.binds.into_items(),
        back: at as u16,
        client: front.client,
        keep_alive: front.keep_alive,
    })
}

/// The frontends with the places of their backends.
pub fn place_all(
    alloc: Global,
    fronts: Vec<Frontend>,
    backs: &[Backend],
) -> Result<Vec<Front>, Stop>
    requires { length backs.now ≤ 16 }
    ensures { Leads (λ v. v.items) result (meaning.all_placed backs.now fronts.items) }
{
    let mut rest = fronts;
    let mut placed = Vec::new(alloc);
    while !rest.is_empty() {
        let front = place(rest.remove(0), backs)?;
        placed.push(front)?;
    }
    Ok(placed)
}

fn is_wanted(at: usize, fronts: &[Front]) -> bool
    ensures { result ≡ list_any (λ f. f.back == at) fronts.now }
{
    fronts.iter().any(|f| f.back as usize == at)
}

// Whether the backend at this place is that of a frontend, and has no server.
fn is_idle(at: usize, fronts: &[Front], back: &Backend) -> bool
    ensures { result ≡ meaning.is_idle at fronts.now back.now }
{
    back.back.servers.as_slice().is_empty() && is_wanted(at, fronts)
}

/// Each frontend's backend must have a server.
pub fn serve_all(fronts: &[Front], backs: &[Backend]) -> Result<(), Stop>
    ensures { Leads (λ _. tt) result (meaning.all_served 0 fronts.now backs.now) }
{
    for (i, b) in backs.iter().enumerate() {
        if is_idle(i, fronts, b) {
            return Err(Stop::At(Flaw {
                line: b.line,
                rule: Rule::NoServer,
            }));
        }
    }
    Ok(())
}

/// The backends without their lines.
pub fn backs_of(alloc: Global, backs: Vec<Backend>) -> Result<Vec<Back>, Stop>
    ensures { Leads (λ v. v.items) result (Ok (map (λ b. b.back) backs.items)) }
{
    Ok(backs.into_iter().map(|b| b.back).collect(alloc)?)
}
