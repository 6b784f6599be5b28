//! The entries of one seat. They take no memory: they are the view of a token at a table of one
//! word, which nobody else reads.
ghost use Rattle.std.specs.Prelude.{◌≡◌, [], IfOk};

use atomic_table::{Play, Table, TableRule};
use hx_base::{Faced, NoMemory};
use hx_pool::{Entry, Note};
use std::alloc::Global;
use std::collections::LinkedList;
use std::marker::{Brand, Model, PhantomData};

type Notes = LinkedList<Note>;

/// Nobody else has a seat at the table, so it needs no rule.
pub(crate) struct Unshared;

impl TableRule<(), LinkedList<Note>, ()> for Unshared {
    ghost holds = { λ _ _. Unit {0} };

    ghost first = { λ _. [] };
}

/// What a step adds. A call at `Brand` picks it.
pub(crate) trait Says {
    ghost use Rattle.hx_pool.specs.declared.entries.Note.{Note};

    ghost note: { Note };
}

impl Says for Brand {
    ghost use Rattle.hx_plain.specs.Book.{no_note};

    ghost note = { no_note };
}

/// The one kind of step: a load that adds an entry.
pub(crate) struct Adds<W> {
    marker: PhantomData<W>,
}

impl<W: Says> Play<(), LinkedList<Note>> for Adds<W> {
    ghost use Rattle.hx_plain.specs.Book.{Writes};

    ghost then = { Writes W.note };
}

#[derive(Drop)]
pub(crate) struct Ledger {
    table: Table<(), Notes, (), Unshared, Global>,
    token: atomic_table::Seat<(), Notes>,
}

impl Model for Ledger {
    ghost use Rattle.std.specs.Prelude.{◌≡◌};
    ghost use Rattle.hx_plain.specs.Book.{Book};

    ghost Value = { Book };

    ghost view = { λ l. record { board = l.table.shared.table_id; notes = l.token.me.0 } };

    ghost invariant = { λ l. (l.token.table_id ≡ l.table.shared.table_id)
        × (l.table.shared.table_id.words ≡ 1) };
}

impl Ledger {
    ghost use Rattle.std.specs.Prelude.{Some};
    ghost use Rattle.hx_pool.specs.History.{plain};
    ghost use Rattle.hx_plain.specs.Book.{add_note};

    pub(crate) fn new(alloc: Global) -> Result<Ledger, NoMemory>
        ensures { IfOk result (λ l. l.notes ≡ []) }
    {
        match Table::of_words(alloc, &[0], &()) {
            Ok((table, token)) => Ok(Ledger { table, token }),
            Err(_) => Err(NoMemory),
        }
    }

    fn add<W: Says, T>(&mut self, _entry: Entry, _beside: &T)
        ensures { self.new ≡ add_note self.old W.note }
    {
        let table = &self.table;
        table.shared.load::<Adds<W>>(&mut self.token, 0);
    }

    pub(crate) fn write(&mut self, entry: Entry)
        ensures { self.new ≡ add_note self.old (plain entry) }
    {
        self.add::<Brand, ()>(entry, &());
    }

    /// Beside a Park stands what the value's link tells.
    pub(crate) fn write_park<V: Faced>(&mut self, entry: Entry, v: &V)
        ensures { self.new ≡ add_note self.old
            (record { entry = entry; what = Some (V.shows v.now).what }) }
    {
        self.add::<Brand, V>(entry, v);
    }
}
