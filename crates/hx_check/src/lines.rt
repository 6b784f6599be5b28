//! Lines of a printed transcript, counted up to u32's greatest number.
ghost use Rattle.std.specs.Prelude.{◌≡◌, ◌+◌, ◌*◌};
ghost use Rattle.hx_check.specs.Lines.{told_line, lines_of, server_lines, records_at, clients_at, conns_at, totals_at};

use hx_script::{ServerPart, Transcript};

/// The line so many behind that one.
pub(crate) fn behind(line: u32, count: usize) -> u32
    ensures { result ≡ told_line (line + count) }
{
    match u32::try_from(count) {
        Ok(count) => line.saturating_add(count),
        Err(_) => u32::MAX,
    }
}

/// The line so many pairs of lines behind that one.
pub(crate) fn pairs_behind(line: u32, count: usize) -> u32
    ensures { result ≡ told_line (line + 2 * count) }
{
    behind(behind(line, count), count)
}

/// The line behind those of the server that begins on that line.
pub(crate) fn behind_server(line: u32, part: &ServerPart) -> u32
    ensures { result ≡ told_line (line + lines_of part.now) }
{
    behind(behind(line, 1), part.marks.as_slice().len())
}

/// The line of the first record.
pub(crate) fn records_at(t: &Transcript) -> u32
    ensures { result ≡ told_line (records_at t.now) }
{
    let mut line = 3;
    let servers = t.servers.as_slice();
    for part in servers {
        line = behind_server(line, part);
    }
    line
}

/// The line of the first client.
pub(crate) fn clients_at(t: &Transcript) -> u32
    ensures { result ≡ told_line (clients_at t.now) }
{
    behind(behind(records_at(t), t.records.as_slice().len()), 1)
}

/// The line of the first connection.
pub(crate) fn conns_at(t: &Transcript) -> u32
    ensures { result ≡ told_line (conns_at t.now) }
{
    pairs_behind(clients_at(t), t.clients.as_slice().len())
}

/// The line of the first totals.
pub(crate) fn totals_at(t: &Transcript) -> u32
    ensures { result ≡ told_line (totals_at t.now) }
{
    behind(pairs_behind(conns_at(t), t.conns.as_slice().len()), 1)
}
