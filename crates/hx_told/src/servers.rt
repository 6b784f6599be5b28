//! The servers of a replay: their names and rules, their marks and their totals.
ghost use Rattle.std.specs.Prelude.{◌≡◌, ◌++◌, true, map, All, IfOk, OnOk, length};
ghost use Rattle.hx_script.specs.PrintedForm.{IsToldMark, IsToldServer};
ghost use Rattle.hx_told.specs.Servers.{named_of, named_servers, HasNames};
ghost use Rattle.hx_told.specs.Servers.{part_of, parts_of, IsWhole, all_sums};

use hx_base::{Faced, Items, Name, NoMemory, PoolRules, Totals};
use hx_config::{Back, Config, Server};
use hx_plain::PlainSeat;
use hx_pool::{Entry, JournalSeat, Seat};
use hx_script::ServerPart;
use std::alloc::Global;

/// The names of a server and of its backend, and its rules.
#[derive(Drop)]
pub(crate) struct Named {
    pub back: Name,
    pub server: Name,
    pub rules: PoolRules,
}

fn copy_name(alloc: Global, name: &Name) -> Result<Name, NoMemory>
    ensures same { IfOk result (λ n. n ≡ name.now) }
{
    Ok(Items::from_vec(Vec::from_slice(alloc, name.as_slice())?))
}

fn names_of(alloc: Global, back: &Back, server: &Server) -> Result<Named, NoMemory>
    ensures named { IfOk result (λ n. n ≡ named_of back.now server.now) }
{
    Ok(Named {
        back: copy_name(alloc, &back.name)?,
        server: copy_name(alloc, &server.name)?,
        rules: server.rules,
    })
}

/// Adds the servers of a backend.
fn name_back(alloc: Global, back: &Back, names: &mut Vec<Named>) -> Result<(), NoMemory>
    ensures more { OnOk result (names.new.items
        ≡ names.old.items ++ map (named_of back.now) back.now.servers) }
{
    for server in back.servers.as_slice() {
        names.push(names_of(alloc, back, server)?)?;
    }
    Ok(())
}

/// The servers of the configuration, in order.
///
/// # Errors
/// `NoMemory`.
pub(crate) fn name_servers(alloc: Global, config: &Config) -> Result<Vec<Named>, NoMemory>
    ensures servers { IfOk result (λ names. names.items ≡ named_servers config.now.backs) }
    ensures names { IfOk result (λ names. All HasNames names.items) }
{
    let mut names = Vec::new(alloc);
    for back in config.backs.as_slice() {
        name_back(alloc, back, &mut names)?;
    }
    Ok(names)
}

/// Whether a transcript has a line for the mark: a take of the caretaker is none for a first request.
fn is_told(mark: Entry) -> bool
    ensures told { result ≡ true → IsToldMark mark }
{
    match mark {
        Entry::Take { n, first, .. } => n.0 != 0 || !first,
        Entry::Open { .. }
        | Entry::Park { .. }
        | Entry::Close { .. }
        | Entry::SetGate { .. }
        | Entry::Round { .. } => true,
        Entry::Free { .. }
        | Entry::Look { .. }
        | Entry::Up { .. }
        | Entry::Down { .. }
        | Entry::Count { .. }
        | Entry::Gate { .. } => false,
    }
}

fn are_told(marks: &[Entry]) -> bool
    ensures told { result ≡ true → All IsToldMark marks.now }
{
    for mark in marks {
        if !is_told(*mark) {
            return false;
        }
    }
    true
}

/// The marks of a seat.
fn marks_of<V: Faced>(
    alloc: Global,
    seat: &JournalSeat<PlainSeat<V>>,
) -> Result<Items<Entry>, NoMemory>
    ensures marks { IfOk result (λ marks. marks ≡ seat.now.stored) }
    ensures told { IfOk result (λ marks. All IsToldMark marks) }
    ensures whole { OnOk result (IsWhole seat.now) }
{
    if !seat.is_whole() || !are_told(seat.marks()) {
        return Err(NoMemory);
    }
    Ok(Items::from_vec(Vec::from_slice(alloc, seat.marks())?))
}

fn server_part<V: Faced>(
    alloc: Global,
    named: Named,
    seat: &JournalSeat<PlainSeat<V>>,
) -> Result<ServerPart, NoMemory>
    requires names { HasNames named }
    ensures part { IfOk result (λ part. part ≡ part_of named seat.now) }
    ensures told { IfOk result IsToldServer }
    ensures whole { OnOk result (IsWhole seat.now) }
{
    let marks = marks_of(alloc, seat)?;
    Ok(ServerPart {
        back: named.back,
        server: named.server,
        rules: named.rules,
        marks,
    })
}

/// Each server with the marks of its seat.
///
/// # Errors
/// `NoMemory` for want of memory, now or when a mark was to be stored; and where there aren't just as many seats, or a
/// mark has no line.
pub(crate) fn tell_servers<V: Faced>(
    alloc: Global,
    names: Vec<Named>,
    seats: &[JournalSeat<PlainSeat<V>>],
) -> Result<Vec<ServerPart>, NoMemory>
    requires names { All HasNames names.items }
    ensures parts { IfOk result (λ parts. parts.items ≡ parts_of names.items seats.now) }
    ensures told { IfOk result (λ parts. All IsToldServer parts.items) }
    ensures each { IfOk result (λ parts. length parts.items ≡ length seats.now) }
    ensures whole { OnOk result (All IsWhole seats.now) }
{
    let mut parts = Vec::new(alloc);
    for named in names {
        let Some(seat) = seats.get(parts.len()) else {
            return Err(NoMemory);
        };
        parts.push(server_part(alloc, named, seat)?)?;
    }
    if parts.len() != seats.len() {
        return Err(NoMemory);
    }
    Ok(parts)
}

/// The totals of each seat.
///
/// # Errors
/// `NoMemory`.
pub(crate) fn tell_totals<V: Faced>(
    alloc: Global,
    seats: &[JournalSeat<PlainSeat<V>>],
) -> Result<Vec<Totals>, NoMemory>
    ensures totals { IfOk result (λ totals. totals.items ≡ all_sums seats.now) }
{
    let mut totals = Vec::new(alloc);
    for seat in seats {
        totals.push(seat.totals())?;
    }
    Ok(totals)
}
