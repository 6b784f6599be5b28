//! The lines of links' bytes and of totals.
ghost use Rattle.std.specs.Prelude.{◌≡◌, ◌++◌, OnOk, decimal, codes};
ghost use Rattle.hx_script.specs.MarkLines.{full_name};
ghost use Rattle.hx_script.specs.LinkLines.{client_lines, conn_lines, totals_text};

use crate::mark_lines::put_full_name;
use crate::pieces::{put, put_number, put_quoted, put_who};
use crate::record_lines::put_conn;
use crate::transcript::ServerPart;
use hx_base::{NoMemory, Totals};
use hx_record::{ClientBytes, ConnBytes};

#[tactic(auto, unfolding(crate::specs::LinkLines::client_lines))]
pub(crate) fn put_client(out: &mut Vec<u8>, c: &ClientBytes) -> Result<(), NoMemory>
    ensures { OnOk result (out.new.items ≡ out.old.items ++ client_lines c.now) }
{
    put(out, b"client ")?;
    put_who(out, c.worker, c.session)?;
    put(out, b" took ")?;
    put_quoted(out, c.took.as_slice())?;
    put(out, b"\nclient ")?;
    put_who(out, c.worker, c.session)?;
    put(out, b" gave ")?;
    put_quoted(out, c.gave.as_slice())?;
    put(out, b"\n")
}

#[tactic(auto, unfolding(crate::specs::LinkLines::conn_lines))]
pub(crate) fn put_conn_bytes(
    out: &mut Vec<u8>,
    servers: &[ServerPart],
    c: &ConnBytes,
) -> Result<(), NoMemory>
    ensures { OnOk result (out.new.items ≡ out.old.items ++ conn_lines servers.now c.now) }
{
    put(out, b"conn ")?;
    put_conn(out, servers, c.server, c.id)?;
    put(out, b" sent ")?;
    put_quoted(out, c.sent.as_slice())?;
    put(out, b"\nconn ")?;
    put_conn(out, servers, c.server, c.id)?;
    put(out, b" took ")?;
    put_quoted(out, c.took.as_slice())?;
    put(out, b"\n")
}

fn put_count(out: &mut Vec<u8>, label: &[u8], n: u64) -> Result<(), NoMemory>
    ensures { OnOk result (out.new.items ≡ out.old.items ++ label.now ++ decimal n) }
{
    put(out, label)?;
    put_number(out, n)
}

#[tactic(auto, unfolding(crate::specs::LinkLines::totals_text))]
fn put_counts(out: &mut Vec<u8>, t: Totals) -> Result<(), NoMemory>
    ensures { OnOk result (out.new.items ≡ out.old.items ++ totals_text t) }
{
    put_count(out, b" open ", t.opened)?;
    put_count(out, b" park ", t.parked)?;
    put_count(out, b" take ", t.taken)?;
    put_count(out, b" over ", t.over)?;
    put_count(out, b" care ", t.care)?;
    put_count(out, b" close ", t.closed)?;
    put(out, b"\n")
}

pub(crate) fn put_totals(out: &mut Vec<u8>, part: &ServerPart, t: Totals) -> Result<(), NoMemory>
    ensures { OnOk result (out.new.items ≡ out.old.items ++ (full_name part.now ++ totals_text t)) }
{
    put_full_name(out, part)?;
    put_counts(out, t)
}
