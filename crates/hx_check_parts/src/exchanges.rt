//! The exchanges that records tell of a connection.
ghost use Rattle.std.specs.Prelude.{◌≡◌, ◌↔◌, [], ◌∷◌, IsTrue, IsSome, IfSome, MatchOption, length};
ghost use Rattle.hx_record.specs.Tiles.{carried_of};
ghost use Rattle.hx_check_parts.specs.Tiling.{exchanges_of, numbered, end_of, SentHolds, TookHolds, AreNumbered, Follow};
ghost use Rattle.hx_check_parts.specs.Ways.{range_on};

use crate::records::Records;
use hx_base::Span;
use hx_record::{Carried, ConnBytes, Kind, Told};

/// What the record tells of the connection.
fn carried_of(conn: &ConnBytes, told: Told) -> Option<Carried>
    ensures { MatchOption result (carried_of conn.now.server conn.now.id told ≡ [])
        (λ c. carried_of conn.now.server conn.now.id told ≡ c ∷ []) }
{
    let Told::Served(s) = told else { return None };
    let carried = match s.kind {
        Kind::Passed(carried) => carried,
        Kind::Cut(carried, _) => carried,
        Kind::Own(_) => return None,
    };
    if carried.server == conn.server && carried.id == conn.id {
        Some(carried)
    } else {
        None
    }
}

/// How many exchanges the records tell of the connection. It goes over all of them.
fn count_among(records: &[Told], conn: &ConnBytes) -> usize
    ensures { result ≡ length (exchanges_of records.now conn.now) }
{
    let mut count = 0;
    for told in records {
        if carried_of(conn, *told).is_some() {
            count += 1;
        }
    }
    count
}

/// The connection's exchange of that number. It goes over the records.
fn numbered_among(records: &[Told], conn: &ConnBytes, number: u64) -> Option<Carried>
    ensures { result ≡ numbered number (exchanges_of records.now conn.now) }
{
    for told in records {
        if let Some(carried) = carried_of(conn, *told) {
            if u64::from(carried.nth) == number {
                return Some(carried);
            }
        }
    }
    None
}

/// How many exchanges the records tell of the connection.
fn count_of(records: &Records<'_>, conn: &ConnBytes) -> usize
    ensures { result ≡ length (exchanges_of records.now conn.now) }
{
    match records.tables() {
        None => count_among(records.as_slice(), conn),
        Some(tables) => tables.exchanges.count_of(conn),
    }
}

/// The connection's exchange of that number.
fn numbered(records: &Records<'_>, conn: &ConnBytes, number: u64) -> Option<Carried>
    ensures { result ≡ numbered number (exchanges_of records.now conn.now) }
{
    match records.tables() {
        None => numbered_among(records.as_slice(), conn, number),
        Some(tables) => tables.exchanges.numbered(conn, number),
    }
}

fn has_number(records: &Records<'_>, conn: &ConnBytes, number: u64) -> bool
    ensures { IsTrue result ↔ IsSome (numbered number (exchanges_of records.now conn.now)) }
{
    numbered(records, conn, number).is_some()
}

/// Which link's ranges of a connection.
#[derive(Clone, Copy)]
pub(crate) enum Way {
    /// What was sent.
    Sent,
    /// What was read.
    Took,
}

fn range_on(way: Way, carried: Carried) -> Span
    ensures { result ≡ range_on way carried }
{
    match way {
        Way::Sent => carried.sent,
        Way::Took => carried.took,
    }
}

/// Where the range of an exchange ends.
fn end_on(way: Way, carried: Option<Carried>) -> u64
    ensures { result ≡ end_of (range_on way) carried }
{
    match carried {
        None => 0,
        Some(carried) => range_on(way, carried).to,
    }
}

/// Whether each number from 1 on is there.
fn are_numbered(records: &Records<'_>, conn: &ConnBytes) -> bool
    ensures { IsTrue result ↔ AreNumbered (exchanges_of records.now conn.now) }
{
    for k in 0..count_of(records, conn) {
        if !has_number(records, conn, k as u64 + 1) {
            return false;
        }
    }
    true
}

fn begins_at(way: Way, carried: Option<Carried>, at: u64) -> bool
    ensures { IsTrue result ↔ IfSome carried (λ c. (range_on way c).from ≡ at) }
{
    match carried {
        None => true,
        Some(carried) => range_on(way, carried).from == at,
    }
}

/// Whether the ranges follow each other by rising number.
fn follow(way: Way, records: &Records<'_>, conn: &ConnBytes) -> bool
    ensures { IsTrue result ↔ Follow (range_on way) (exchanges_of records.now conn.now) }
{
    let mut last = numbered(records, conn, 0);
    for k in 0..count_of(records, conn) {
        let next = numbered(records, conn, k as u64 + 1);
        if !begins_at(way, next, end_on(way, last)) {
            return false;
        }
        last = next;
    }
    true
}

/// Whether the connection's exchanges are numbered, and what was sent in them follows each other.
pub fn sent_holds(records: &Records<'_>, conn: &ConnBytes) -> bool
    ensures { IsTrue result ↔ SentHolds records.now conn.now }
{
    are_numbered(records, conn) && follow(Way::Sent, records, conn)
}

/// Whether what was read in the connection's exchanges follows each other.
pub fn took_holds(records: &Records<'_>, conn: &ConnBytes) -> bool
    ensures { IsTrue result ↔ TookHolds records.now conn.now }
{
    follow(Way::Took, records, conn)
}
