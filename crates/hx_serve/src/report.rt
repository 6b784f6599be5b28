//! What is printed at the end of a run.

use hx_base::{NoMemory, Totals};
use hx_config::{Config, Server};
use hx_stats::report;
use std::alloc::Global;

/// The line of one server: its name with its backend's, and its totals.
fn put_server(
    alloc: Global,
    out: &mut Vec<u8>,
    back: &[u8],
    server: &Server,
    totals: &Totals,
) -> Result<(), NoMemory> {
    out.extend_from_slice(back)?;
    out.extend_from_slice(b"/")?;
    out.extend_from_slice(server.name.as_slice())?;
    out.extend_from_slice(b" ")?;
    let line = report(alloc, totals)?;
    out.extend_from_slice(line.as_slice())?;
    Ok(())
}

/// The lines of the servers of one backend.
fn put_back(
    alloc: Global,
    out: &mut Vec<u8>,
    back: &[u8],
    servers: &[Server],
    sums: &[Totals],
) -> Result<(), NoMemory> {
    for server in servers {
        if let Some(totals) = sums.get(server.no.0 as usize) {
            put_server(alloc, out, back, server, totals)?;
        }
    }
    Ok(())
}

/// A line for each server, in order, with its totals.
pub(crate) fn totals_text(
    alloc: Global,
    config: &Config,
    sums: &[Totals],
) -> Result<Vec<u8>, NoMemory> {
    let mut out = Vec::new(alloc);
    for back in config.backs.as_slice() {
        put_back(
            alloc,
            &mut out,
            back.name.as_slice(),
            back.servers.as_slice(),
            sums,
        )?;
    }
    Ok(out)
}
