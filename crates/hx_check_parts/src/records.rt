//! The records of a transcript, with or without tables.
ghost use Rattle.std.specs.Prelude.{◌≡◌, IfOk, ◌↔◌, IsTrue, length};
ghost use Rattle.hx_check_parts.specs.Kept.{KeepsTables};

use crate::numbers::Exchanges;
use crate::sessions::{Covered, note_session};
use hx_base::NoMemory;
use hx_check_table::Table;
use hx_record::Told;
use std::alloc::Global;
use std::marker::Model;

/// What records tell of each session and of each connection.
#[derive(Drop)]
pub(crate) struct Tables {
    pub(crate) sessions: Table<Covered>,
    pub(crate) exchanges: Exchanges,
}

/// The tables of these records.
fn tables_of(alloc: Global, list: &[Told]) -> Result<Tables, NoMemory>
    ensures { IfOk result (KeepsTables list.now) }
{
    let mut sessions: Table<Covered> = Table::new(alloc);
    let mut exchanges = Exchanges::new(alloc);
    for k in 0..list.len() {
        let told = list[k];
        note_session(&mut sessions, told, k)?;
        exchanges.note(told)?;
    }
    Ok(Tables {
        sessions,
        exchanges,
    })
}

/// The records of a transcript, with or without tables of what they tell of sessions and of connections.
#[derive(Drop)]
pub struct Records<'a> {
    list: &'a [Told],
    tables: Option<Tables>,
}

impl<'a> Model for Records<'a> {
    ghost use Rattle.std.specs.Prelude.{List, IfSome};
    ghost use Rattle.hx_record.specs.declared.served.Told.{Told};
    ghost use Rattle.hx_check_parts.specs.Kept.{KeepsTables};

    ghost Value = { List Told };

    ghost view = { λ x. x.list.now };

    ghost invariant = { λ x. IfSome x.tables (KeepsTables x.list.now) };
}

impl<'a> Records<'a> {
    ghost use Rattle.std.specs.Prelude.{IfSome};

    /// These records. Each look-up goes over them.
    pub fn of(list: &'a [Told]) -> Records<'a>
        ensures { result ≡ list.now }
    {
        Records { list, tables: None }
    }

    /// These records, with tables. The one error is want of memory.
    pub fn with_tables(alloc: Global, list: &'a [Told]) -> Result<Records<'a>, NoMemory>
        ensures { IfOk result (λ x. x ≡ list.now) }
    {
        let tables = tables_of(alloc, list)?;
        Ok(Records {
            list,
            tables: Some(tables),
        })
    }

    /// All of them.
    pub fn as_slice(&self) -> &'a [Told]
        ensures { result.now ≡ self.now }
    {
        self.list
    }

    /// The tables, if there are some.
    pub(crate) fn tables(&self) -> Option<&Tables>
        ensures { IfSome result (λ x. KeepsTables self.now x.now) }
    {
        self.tables.as_ref()
    }
}
