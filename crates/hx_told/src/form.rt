//! Whether the parts of a transcript name each other, so that a text tells them.
ghost use Rattle.std.specs.Prelude.{◌≡◌, ◌<◌, true, All, length};
ghost use Rattle.hx_script.specs.PrintedForm.{OtherName, OtherNames, IsToldKind, IsToldRecord};
ghost use Rattle.hx_record.specs.declared.bytes.ConnBytes.{ConnBytes as ConnBytesNow};

use hx_base::Name;
use hx_record::{Carried, ConnBytes, CutCause, Kind, Told};
use hx_script::ServerPart;

fn same(a: &Name, b: &Name) -> bool
    ensures same { a.now ≡ b.now → result ≡ true }
{
    a.as_slice() == b.as_slice()
}

/// Whether no later server has the name of this one.
fn has_own_name(part: &ServerPart, later: &[ServerPart]) -> bool
    ensures own { result ≡ true → All (OtherName part.now) later.now }
{
    for other in later {
        if same(&part.back, &other.back) && same(&part.server, &other.server) {
            return false;
        }
    }
    true
}

/// Whether no two servers have one name.
pub(crate) fn have_own_names(servers: &[ServerPart]) -> bool
    ensures own { result ≡ true → OtherNames servers.now }
{
    let mut left = servers;
    while let Some((part, later)) = left.split_first() {
        if !has_own_name(part, later) {
            return false;
        }
        left = later;
    }
    true
}

/// Whether the connection's server is one of so many.
fn is_there(count: usize, carried: Carried) -> bool
    ensures there { result ≡ true → carried.server.0 < count }
{
    (carried.server.0 as usize) < count
}

fn is_told(count: usize, told: Told) -> bool
    ensures told { result ≡ true → IsToldRecord count told }
{
    let Told::Served(served) = told else {
        return true;
    };
    match served.kind {
        Kind::Passed(carried) => is_there(count, carried),
        Kind::Cut(carried, why) => {
            is_there(count, carried) && (carried.closing || why != CutCause::Early)
        }
        Kind::Own(_) => true,
    }
}

/// Whether each record names a server that is there, and each early cut closes.
pub(crate) fn are_told(count: usize, records: &[Told]) -> bool
    ensures told { result ≡ true → All (IsToldRecord count) records.now }
{
    for told in records {
        if !is_told(count, *told) {
            return false;
        }
    }
    true
}

/// Whether each connection is to a server that is there.
pub(crate) fn are_named(count: usize, conns: &[ConnBytes]) -> bool
    ensures named { result ≡ true → All (λ (c : ConnBytesNow). c.server.0 < count) conns.now }
{
    for conn in conns {
        if conn.server.0 as usize >= count {
            return false;
        }
    }
    true
}
