//! The order of clients and of connections in a transcript.
ghost use Rattle.std.specs.Prelude.{◌≡◌, true, IfOk};
ghost use Rattle.std.specs.List.Sorted.{IsPermutation};
ghost use Rattle.hx_script.specs.PrintedForm.{PairBefore, ClientBefore, ConnBefore, Rises};
ghost use Rattle.hx_told.specs.Orders.{Leads};

use hx_base::NoMemory;
use hx_record::{ClientBytes, ConnBytes};

/// Whether the first comes before the second, by its first number and then by its second.
fn is_before(a: (u64, u64), b: (u64, u64)) -> bool
    ensures before { result ≡ true → PairBefore a.0 a.1 b.0 b.1 }
{
    a.0 < b.0 || a.0 == b.0 && a.1 < b.1
}

fn client_key(client: &ClientBytes) -> (u64, u64)
    ensures key { result ≡ (client.now.worker.0, client.now.session.0) }
{
    (client.worker.0 as u64, client.session.0 as u64)
}

fn conn_key(conn: &ConnBytes) -> (u64, u64)
    ensures key { result ≡ (conn.now.server.0, conn.now.id.0) }
{
    (conn.server.0 as u64, conn.id.0)
}

/// Whether the client comes before the first of the others.
fn client_leads(client: &ClientBytes, others: &[ClientBytes]) -> bool
    ensures leads { result ≡ true → Leads ClientBefore client.now others.now }
{
    match others.split_first() {
        Some((next, _)) => is_before(client_key(client), client_key(next)),
        None => true,
    }
}

/// Whether the connection comes before the first of the others.
fn conn_leads(conn: &ConnBytes, others: &[ConnBytes]) -> bool
    ensures leads { result ≡ true → Leads ConnBefore conn.now others.now }
{
    match others.split_first() {
        Some((next, _)) => is_before(conn_key(conn), conn_key(next)),
        None => true,
    }
}

fn clients_rise(clients: &[ClientBytes]) -> bool
    ensures rise { result ≡ true → Rises ClientBefore clients.now }
{
    let mut left = clients;
    while let Some((client, others)) = left.split_first() {
        if !client_leads(client, others) {
            return false;
        }
        left = others;
    }
    true
}

fn conns_rise(conns: &[ConnBytes]) -> bool
    ensures rise { result ≡ true → Rises ConnBefore conns.now }
{
    let mut left = conns;
    while let Some((conn, others)) = left.split_first() {
        if !conn_leads(conn, others) {
            return false;
        }
        left = others;
    }
    true
}

/// Clients by thread, then by session.
///
/// # Errors
/// `NoMemory` for want of memory; and where a session stands twice.
pub(crate) fn order_clients(clients: Vec<ClientBytes>) -> Result<Vec<ClientBytes>, NoMemory>
    ensures same { IfOk result (λ ordered. IsPermutation clients.items ordered.items) }
    ensures rise { IfOk result (λ ordered. Rises ClientBefore ordered.items) }
{
    let mut ordered = clients;
    ordered.sort_by_key(|client| client_key(client))?;
    if !clients_rise(ordered.as_slice()) {
        return Err(NoMemory);
    }
    Ok(ordered)
}

/// Connections by server, then by id.
///
/// # Errors
/// `NoMemory` for want of memory; and where a connection stands twice.
pub(crate) fn order_conns(conns: Vec<ConnBytes>) -> Result<Vec<ConnBytes>, NoMemory>
    ensures same { IfOk result (λ ordered. IsPermutation conns.items ordered.items) }
    ensures rise { IfOk result (λ ordered. Rises ConnBefore ordered.items) }
{
    let mut ordered = conns;
    ordered.sort_by_key(|conn| conn_key(conn))?;
    if !conns_rise(ordered.as_slice()) {
        return Err(NoMemory);
    }
    Ok(ordered)
}
