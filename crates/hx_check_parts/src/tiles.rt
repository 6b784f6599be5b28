//! The fifth rule: the ranges of the records cover the bytes of the links.
ghost use Rattle.std.specs.Prelude.{◌≡◌, ℕ, ◌↔◌, ◌+◌, ◌<◌, ◌^◌, IsTrue, Some, MatchOption, List, length, slice_get};
ghost use Rattle.hx_base.specs.Spans.{AreContiguous};
ghost use Rattle.hx_check_parts.specs.Each.{HoldsOfEach, FailsFirst};
ghost use Rattle.hx_check_parts.specs.Tiling.{LeftHolds, IsLastOf, HasLeft};
ghost use Rattle.hx_check_parts.specs.Sessions.{IsCovered, EndsAt};
ghost use Rattle.hx_check_parts.specs.Ranges.{ranges_of, HasLeftAt};

use crate::links::Clients;
use crate::ranges::{Side, end_of, tell_none};
use crate::records::Records;
use crate::sessions::{Covered, covered_at};
use hx_record::{ClientBytes, Left, Told};

/// Whether the ranges follow each other over so many bytes.
fn cover(side: Side, left: Left, records: &[Told], bytes: usize) -> bool
    ensures { IsTrue result ↔ AreContiguous 0 (ranges_of side left.worker left.session records.now) bytes }
{
    end_of(side, left.worker, left.session, records) == Some(bytes as u64)
}

/// Whether the left line at that index is its session's last, and the ranges cover its client's bytes. It goes over the records.
fn left_among(clients: &Clients<'_>, records: &[Told], k: usize, left: Left) -> bool
    requires { k < length records.now }
    ensures { IsTrue result ↔ LeftHolds clients.now records.now k left }
{
    let took = clients.took(left.worker, left.session);
    let gave = clients.gave(left.worker, left.session);
    tell_none(Side::Ask, left.worker, left.session, &records[k + 1..])
        && cover(Side::Ask, left, &records[..k + 1], took.len())
        && cover(Side::Gave, left, &records[..k], gave.len())
}

/// Whether the session's last record has that index, and its ranges end there.
fn ends_at(covered: Covered, k: usize, took: u64, gave: u64) -> bool
    ensures { IsTrue result ↔ EndsAt covered k took gave }
{
    covered.last == Some(k) && covered.asks == Some(took) && covered.gaves == Some(gave)
}

/// The same, by what the records tell of the session.
fn left_in(clients: &Clients<'_>, covered: Covered, k: usize, left: Left) -> bool
    ensures { (records : List Told) → slice_get records k ≡ Some (Told.Left left)
        → IsCovered left.worker left.session records covered → IsTrue result ↔ LeftHolds clients.now records k left }
{
    let took = clients.took(left.worker, left.session);
    let gave = clients.gave(left.worker, left.session);
    ends_at(covered, k, took.len() as u64, gave.len() as u64)
}

/// Whether the left line at that index is its session's last, and the ranges cover its client's bytes.
fn left_holds(clients: &Clients<'_>, records: &Records<'_>, k: usize, left: Left) -> bool
    requires { slice_get records.now k ≡ Some (Told.Left left) }
    ensures { IsTrue result ↔ LeftHolds clients.now records.now k left }
{
    match records.tables() {
        None => left_among(clients, records.as_slice(), k, left),
        Some(tables) => {
            let covered = covered_at(&tables.sessions, left.worker, left.session);
            left_in(clients, covered, k, left)
        }
    }
}

/// The same of a record, where it is a left line.
fn is_last(clients: &Clients<'_>, records: &Records<'_>, k: usize, told: Told) -> bool
    requires { slice_get records.now k ≡ Some told }
    ensures { IsTrue result ↔ IsLastOf clients.now records.now k told }
{
    match told {
        Told::Served(_) => true,
        Told::Left(left) => left_holds(clients, records, k, left),
    }
}

/// The first left line that is not its session's last, or before which the ranges don't cover its client's bytes.
pub fn first_loose_left(clients: &Clients<'_>, records: &Records<'_>) -> Option<usize>
    ensures { MatchOption result (HoldsOfEach (IsLastOf clients.now records.now) records.now)
        (λ k. FailsFirst (IsLastOf clients.now records.now) records.now k) }
{
    let list = records.as_slice();
    for (k, told) in list.iter().enumerate() {
        if !is_last(clients, records, k, *told) {
            return Some(k);
        }
    }
    None
}

/// Whether the client's session has a left line.
fn has_left(records: &Records<'_>, client: &ClientBytes) -> bool
    ensures { IsTrue result ↔ HasLeft records.now client.now }
{
    match records.tables() {
        None => !tell_none(
            Side::Leaves,
            client.worker,
            client.session,
            records.as_slice(),
        ),
        Some(tables) => covered_at(&tables.sessions, client.worker, client.session).left,
    }
}

/// The first client whose session has no left line.
pub fn first_without_left(clients: &Clients<'_>, records: &Records<'_>) -> Option<usize>
    ensures { MatchOption result (HoldsOfEach (HasLeftAt records.now) clients.now)
        (λ k. FailsFirst (HasLeftAt records.now) clients.now k) }
{
    let list = clients.as_slice();
    for k in 0..list.len() {
        if !has_left(records, &list[k]) {
            return Some(k);
        }
    }
    None
}
