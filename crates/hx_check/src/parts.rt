//! The parts of a transcript that are looked up.
ghost use Rattle.std.specs.Prelude.{IfOk};
ghost use Rattle.hx_check.specs.PartsOf.{IsPartsOf};

use hx_base::NoMemory;
use hx_check_parts::{Clients, Conns, Records};
use hx_script::Transcript;
use std::alloc::Global;

/// The parts of a transcript that are looked up, with or without tables.
#[derive(Drop)]
pub(crate) struct Parts<'a> {
    pub(crate) clients: Clients<'a>,
    pub(crate) conns: Conns<'a>,
    pub(crate) records: Records<'a>,
}

impl<'a> Parts<'a> {
    /// Without tables.
    pub(crate) fn of(t: &'a Transcript) -> Parts<'a>
        ensures { IsPartsOf t.now result }
    {
        Parts {
            clients: Clients::of(t.clients.as_slice()),
            conns: Conns::of(t.conns.as_slice()),
            records: Records::of(t.records.as_slice()),
        }
    }

    /// With tables.
    pub(crate) fn with_tables(alloc: Global, t: &'a Transcript) -> Result<Parts<'a>, NoMemory>
        ensures { IfOk result (IsPartsOf t.now) }
    {
        Ok(Parts {
            clients: Clients::with_table(alloc, t.clients.as_slice())?,
            conns: Conns::with_table(alloc, t.conns.as_slice())?,
            records: Records::with_tables(alloc, t.records.as_slice())?,
        })
    }
}
