//! The exchanges that records tell of each connection, in tables.
ghost use Rattle.std.specs.Prelude.{◌≡◌, ℕ, ◌<◌, ◌≤◌, ◌+◌, ◌-◌, ◌^◌, [], ◌∷◌, ◌++◌, List, length, OnOk, MatchOption};
ghost use Rattle.std.specs.Option.{option_or};
ghost use Rattle.hx_record.specs.Tiles.{carried_of, carried_if};
ghost use Rattle.hx_check_table.specs.Tables.{value_at};
ghost use Rattle.hx_check_parts.specs.Tiling.{exchanges_of, numbered};
ghost use Rattle.hx_check_parts.specs.Numbers.{count_in, AreFewOf, KeepsCounts, KeepsFirsts, KeepsExchanges};

use hx_base::{ConnId, NoMemory, ServerNo};
use hx_check_table::Table;
use hx_record::{Carried, ConnBytes, Kind, Told};
use std::alloc::Global;

/// What the record tells of a connection.
fn carried_in(told: Told) -> Option<Carried>
    ensures { MatchOption result ((server : ServerNo) (id : ConnId) → carried_of server id told ≡ [])
        (λ c. (server : ServerNo) (id : ConnId) → carried_of server id told ≡ carried_if server id c) }
{
    let Told::Served(s) = told else { return None };
    match s.kind {
        Kind::Passed(carried) => Some(carried),
        Kind::Cut(carried, _) => Some(carried),
        Kind::Own(_) => None,
    }
}

fn count_at(counts: &Table<usize>, server: ServerNo, id: ConnId) -> usize
    ensures { result ≡ count_in (value_at counts.now server.0 id.0 0) }
{
    match counts.at(u64::from(server.0), id.0, 0) {
        None => 0,
        Some(count) => count,
    }
}

/// Counts an exchange.
fn note_count(counts: &mut Table<usize>, carried: Carried) -> Result<(), NoMemory>
    requires { AreFewOf (2 ^ 64 - 1) counts.old }
    ensures few { OnOk result ((m : ℕ) → AreFewOf m counts.old → AreFewOf (m + 1) counts.new) }
    ensures more { OnOk result ((server : ServerNo) (id : ConnId) → count_in (value_at counts.new server.0 id.0 0)
        ≡ count_in (value_at counts.old server.0 id.0 0) + length (carried_if server id carried)) }
{
    let count = count_at(counts, carried.server, carried.id);
    counts.put(u64::from(carried.server.0), carried.id.0, 0, count + 1)
}

/// Keeps an exchange, where it is the first of its number.
fn note_first(firsts: &mut Table<Carried>, carried: Carried) -> Result<(), NoMemory>
    ensures { OnOk result ((server : ServerNo) (id : ConnId) (k : ℕ) → value_at firsts.new server.0 id.0 k
        ≡ option_or (value_at firsts.old server.0 id.0 k) (numbered k (carried_if server id carried))) }
{
    let (a, b, c) = (
        u64::from(carried.server.0),
        carried.id.0,
        u64::from(carried.nth),
    );
    match firsts.at(a, b, c) {
        None => firsts.put(a, b, c, carried),
        Some(_) => Ok(()),
    }
}

/// The exchanges of each connection: how many there are, and the first of each number.
#[derive(Drop)]
pub(crate) struct Exchanges {
    counts: Table<usize>,
    firsts: Table<Carried>,
}

impl Exchanges {
    /// Those of no records.
    pub(crate) fn new(alloc: Global) -> Exchanges
        ensures keeps { KeepsExchanges [] result }
        ensures few { AreFewOf 1 result.counts }
    {
        Exchanges {
            counts: Table::new(alloc),
            firsts: Table::new(alloc),
        }
    }

    /// Adds a record.
    pub(crate) fn note(&mut self, told: Told) -> Result<(), NoMemory>
        requires { AreFewOf (2 ^ 64 - 1) self.old.counts }
        ensures few { OnOk result ((m : ℕ) → AreFewOf m self.old.counts → AreFewOf (m + 1) self.new.counts) }
        ensures keeps { OnOk result ((records : List Told) → KeepsExchanges records self.old
            → KeepsExchanges (records ++ told ∷ []) self.new) }
    {
        let Some(carried) = carried_in(told) else {
            return Ok(());
        };
        note_count(&mut self.counts, carried)?;
        note_first(&mut self.firsts, carried)?;
        Ok(())
    }

    /// How many exchanges the connection has.
    pub(crate) fn count_of(&self, conn: &ConnBytes) -> usize
        ensures { (records : List Told) → KeepsExchanges records self.now
            → result ≡ length (exchanges_of records conn.now) }
    {
        count_at(&self.counts, conn.server, conn.id)
    }

    /// The connection's exchange of that number.
    pub(crate) fn numbered(&self, conn: &ConnBytes, number: u64) -> Option<Carried>
        ensures { (records : List Told) → KeepsExchanges records self.now
            → result ≡ numbered number (exchanges_of records conn.now) }
    {
        self.firsts.at(u64::from(conn.server.0), conn.id.0, number)
    }
}
