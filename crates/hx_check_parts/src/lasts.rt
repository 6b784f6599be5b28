//! What the last marks of connections and of places tell, in tables.
ghost use Rattle.std.specs.Prelude.{◌≡◌, None, OnOk, IfOk, MatchOption};
ghost use Rattle.hx_check_table.specs.Tables.{value_at};
ghost use Rattle.hx_check_parts.specs.Marks.{MarkTable, marked, no_marks};
ghost use Rattle.hx_check_parts.specs.Lasts.{is_holder, uses_in, face_in, IsPutHolder, IsPutUses, IsPutFace, KeepsHolders, KeepsUses, KeepsFaces, Keeps};

use hx_base::{ConnId, Face, NoMemory, PlaceNo, SessionNo, ThreadNo};
use hx_check_table::Table;
use hx_pool::Entry;
use std::alloc::Global;

/// The session that has a connection.
#[derive(Clone, Copy)]
pub(crate) struct Holder {
    t: ThreadNo,
    n: SessionNo,
}

/// Whom the mark gives a connection. None within: nobody. None: it leaves each where it is.
fn holder_told(mark: Entry) -> Option<(ConnId, Option<Holder>)>
    ensures { MatchOption result ((T : MarkTable) → (marked T mark).conns ≡ T.conns)
        (λ x. (T : MarkTable) → IsPutHolder T.conns x.0 x.1 (marked T mark).conns) }
{
    match mark {
        Entry::Open { t, n, id } | Entry::Take { t, n, id, .. } => {
            Some((id, Some(Holder { t, n })))
        }
        Entry::Park { id, .. } | Entry::Close { id, .. } => Some((id, None)),
        _ => None,
    }
}

/// The uses that the mark gives a connection.
fn uses_told(mark: Entry) -> Option<(ConnId, u16)>
    ensures { MatchOption result ((T : MarkTable) → (marked T mark).uses ≡ T.uses)
        (λ x. (T : MarkTable) → IsPutUses T.uses x.0 x.1 (marked T mark).uses) }
{
    match mark {
        Entry::Open { id, .. } => Some((id, 0)),
        Entry::Park { id, uses, .. } => Some((id, uses)),
        _ => None,
    }
}

/// What the mark leaves at a place. None within: nothing.
fn face_told(mark: Entry) -> Option<(PlaceNo, Option<Face>)>
    ensures { MatchOption result ((T : MarkTable) → (marked T mark).rests ≡ T.rests)
        (λ x. (T : MarkTable) → IsPutFace T.rests x.0 x.1 (marked T mark).rests) }
{
    match mark {
        Entry::Park {
            id,
            place,
            uses,
            ..
        } => Some((place, Some(Face { id, uses }))),
        Entry::Take { place, .. } => Some((place, None)),
        _ => None,
    }
}

fn note_holder(holders: &mut Table<Option<Holder>>, mark: Entry) -> Result<(), NoMemory>
    ensures { OnOk result ((T : MarkTable) → KeepsHolders T.conns holders.old
        → KeepsHolders (marked T mark).conns holders.new) }
{
    match holder_told(mark) {
        None => Ok(()),
        Some((id, holder)) => holders.put(id.0, 0, 0, holder),
    }
}

fn note_uses(uses: &mut Table<u16>, mark: Entry) -> Result<(), NoMemory>
    ensures { OnOk result ((T : MarkTable) → KeepsUses T.uses uses.old → KeepsUses (marked T mark).uses uses.new) }
{
    match uses_told(mark) {
        None => Ok(()),
        Some((id, count)) => uses.put(id.0, 0, 0, count),
    }
}

fn note_face(faces: &mut Table<Option<Face>>, mark: Entry) -> Result<(), NoMemory>
    ensures { OnOk result ((T : MarkTable) → KeepsFaces T.rests faces.old → KeepsFaces (marked T mark).rests faces.new) }
{
    match face_told(mark) {
        None => Ok(()),
        Some((at, face)) => faces.put(u64::from(at.row), u64::from(at.place), 0, face),
    }
}

/// What marks leave: who has each connection, how often it was used, and what rests at each place.
#[derive(Drop)]
pub(crate) struct Lasts {
    holders: Table<Option<Holder>>,
    uses: Table<u16>,
    faces: Table<Option<Face>>,
}

impl Lasts {
    /// What no marks leave.
    pub(crate) fn new(alloc: Global) -> Lasts
        ensures { Keeps no_marks result }
    {
        Lasts {
            holders: Table::new(alloc),
            uses: Table::new(alloc),
            faces: Table::new(alloc),
        }
    }

    /// Adds a mark.
    pub(crate) fn note(&mut self, mark: Entry) -> Result<(), NoMemory>
        ensures { OnOk result ((T : MarkTable) → Keeps T self.old → Keeps (marked T mark) self.new) }
    {
        note_holder(&mut self.holders, mark)?;
        note_uses(&mut self.uses, mark)?;
        note_face(&mut self.faces, mark)?;
        Ok(())
    }

    /// Whether the connection is with that session.
    pub(crate) fn is_with(&self, t: ThreadNo, n: SessionNo, id: ConnId) -> bool
        ensures { result ≡ is_holder (value_at self.now.holders id.0 0 0) t n }
    {
        match self.holders.at(id.0, 0, 0) {
            Some(Some(holder)) => holder.t == t && holder.n == n,
            _ => false,
        }
    }

    /// The uses of the connection.
    pub(crate) fn uses_of(&self, id: ConnId) -> u16
        ensures { result ≡ uses_in (value_at self.now.uses id.0 0 0) }
    {
        match self.uses.at(id.0, 0, 0) {
            None => 0,
            Some(uses) => uses,
        }
    }

    /// What rests at the place.
    pub(crate) fn resting_at(&self, at: PlaceNo) -> Option<Face>
        ensures { result ≡ face_in (value_at self.now.faces at.row at.place 0) }
    {
        match self.faces.at(u64::from(at.row), u64::from(at.place), 0) {
            None => None,
            Some(face) => face,
        }
    }
}
