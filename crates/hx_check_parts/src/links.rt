//! The bytes of links, by the session or the connection.
ghost use Rattle.std.specs.Prelude.{◌≡◌, ℕ, ◌==◌, ◌&&◌, cond, None, Some, IfOk, OnOk};
ghost use Rattle.std.specs.Option.{option_copied, option_or};
ghost use Rattle.hx_check_table.specs.Tables.{value_at};
ghost use Rattle.hx_check_parts.specs.Links.{client_of, client_took, client_gave, conn_of, conn_sent, conn_took};
ghost use Rattle.hx_check_parts.specs.Found.{FindsClients, FindsConns};

use hx_base::{ConnId, NoMemory, ServerNo, SessionNo, ThreadNo};
use hx_check_table::Table;
use hx_record::{ClientBytes, ConnBytes};
use std::alloc::Global;
use std::marker::Model;

/// The clients of a transcript, with or without a table of them by their sessions.
#[derive(Drop)]
pub struct Clients<'a> {
    list: &'a [ClientBytes],
    // Which client is the first of a session.
    table: Option<Table<usize>>,
}

impl<'a> Model for Clients<'a> {
    ghost use Rattle.std.specs.Prelude.{List, IfSome};
    ghost use Rattle.hx_record.specs.declared.bytes.ClientBytes.{ClientBytes};
    ghost use Rattle.hx_check_parts.specs.Found.{FindsClients};

    ghost Value = { List ClientBytes };

    ghost view = { λ x. x.list.now };

    ghost invariant = { λ x. IfSome x.table (FindsClients x.list.now) };
}

/// The connections of a transcript, with or without a table of them by their numbers.
#[derive(Drop)]
pub struct Conns<'a> {
    list: &'a [ConnBytes],
    // Which connection is the first of a server and a number.
    table: Option<Table<usize>>,
}

impl<'a> Model for Conns<'a> {
    ghost use Rattle.std.specs.Prelude.{List, IfSome};
    ghost use Rattle.hx_record.specs.declared.bytes.ConnBytes.{ConnBytes};
    ghost use Rattle.hx_check_parts.specs.Found.{FindsConns};

    ghost Value = { List ConnBytes };

    ghost view = { λ x. x.list.now };

    ghost invariant = { λ x. IfSome x.table (FindsConns x.list.now) };
}

/// Keeps a place at two numbers, where none is there yet.
fn note_place(table: &mut Table<usize>, a: u64, b: u64, place: usize) -> Result<(), NoMemory>
    ensures { OnOk result ((x y : ℕ) → value_at table.new x y 0
        ≡ option_or (value_at table.old x y 0) (cond (x == a && y == b) (Some place) None)) }
{
    match table.at(a, b, 0) {
        None => table.put(a, b, 0, place),
        Some(_) => Ok(()),
    }
}

/// The first client of each session.
fn clients_table(alloc: Global, list: &[ClientBytes]) -> Result<Table<usize>, NoMemory>
    ensures { IfOk result (FindsClients list.now) }
{
    let mut table: Table<usize> = Table::new(alloc);
    for k in 0..list.len() {
        let client = &list[k];
        note_place(
            &mut table,
            client.worker.0 as u64,
            client.session.0 as u64,
            k,
        )?;
    }
    Ok(table)
}

/// The first connection of each server and number.
fn conns_table(alloc: Global, list: &[ConnBytes]) -> Result<Table<usize>, NoMemory>
    ensures { IfOk result (FindsConns list.now) }
{
    let mut table: Table<usize> = Table::new(alloc);
    for k in 0..list.len() {
        let conn = &list[k];
        note_place(&mut table, conn.server.0 as u64, conn.id.0, k)?;
    }
    Ok(table)
}

fn first_client(clients: &[ClientBytes], t: ThreadNo, n: SessionNo) -> Option<&ClientBytes>
    ensures { option_copied result ≡ client_of clients.now t n }
{
    for client in clients {
        if client.worker == t && client.session == n {
            return Some(client);
        }
    }
    None
}

fn first_conn(conns: &[ConnBytes], server: ServerNo, id: ConnId) -> Option<&ConnBytes>
    ensures { option_copied result ≡ conn_of conns.now server id }
{
    for conn in conns {
        if conn.server == server && conn.id == id {
            return Some(conn);
        }
    }
    None
}

/// The client that the table has.
fn client_in<'a>(
    clients: &'a [ClientBytes],
    table: &Table<usize>,
    t: ThreadNo,
    n: SessionNo,
) -> Option<&'a ClientBytes>
    requires { FindsClients clients.now table.now }
    ensures { option_copied result ≡ client_of clients.now t n }
{
    match table.at(u64::from(t.0), u64::from(n.0), 0) {
        None => None,
        Some(k) => clients.get(k),
    }
}

/// The connection that the table has.
fn conn_in<'a>(
    conns: &'a [ConnBytes],
    table: &Table<usize>,
    server: ServerNo,
    id: ConnId,
) -> Option<&'a ConnBytes>
    requires { FindsConns conns.now table.now }
    ensures { option_copied result ≡ conn_of conns.now server id }
{
    match table.at(u64::from(server.0), id.0, 0) {
        None => None,
        Some(k) => conns.get(k),
    }
}

impl<'a> Clients<'a> {
    /// These clients. Each look-up goes over them.
    pub fn of(list: &'a [ClientBytes]) -> Clients<'a>
        ensures { result ≡ list.now }
    {
        Clients { list, table: None }
    }

    /// These clients, with a table. The one error is want of memory.
    pub fn with_table(alloc: Global, list: &'a [ClientBytes]) -> Result<Clients<'a>, NoMemory>
        ensures { IfOk result (λ x. x ≡ list.now) }
    {
        let table = clients_table(alloc, list)?;
        Ok(Clients {
            list,
            table: Some(table),
        })
    }

    /// All of them.
    pub fn as_slice(&self) -> &'a [ClientBytes]
        ensures { result.now ≡ self.now }
    {
        self.list
    }

    /// The client of a session.
    fn client_of(&self, t: ThreadNo, n: SessionNo) -> Option<&'a ClientBytes>
        ensures { option_copied result ≡ client_of self.now t n }
    {
        match &self.table {
            None => first_client(self.list, t, n),
            Some(table) => client_in(self.list, table, t, n),
        }
    }

    /// What was read of the session's client.
    pub fn took(&self, t: ThreadNo, n: SessionNo) -> &'a [u8]
        ensures { result.now ≡ client_took self.now t n }
    {
        match self.client_of(t, n) {
            None => &[],
            Some(client) => client.took.as_slice(),
        }
    }

    /// What the session's client was given.
    pub fn gave(&self, t: ThreadNo, n: SessionNo) -> &'a [u8]
        ensures { result.now ≡ client_gave self.now t n }
    {
        match self.client_of(t, n) {
            None => &[],
            Some(client) => client.gave.as_slice(),
        }
    }
}

impl<'a> Conns<'a> {
    /// These connections. Each look-up goes over them.
    pub fn of(list: &'a [ConnBytes]) -> Conns<'a>
        ensures { result ≡ list.now }
    {
        Conns { list, table: None }
    }

    /// These connections, with a table. The one error is want of memory.
    pub fn with_table(alloc: Global, list: &'a [ConnBytes]) -> Result<Conns<'a>, NoMemory>
        ensures { IfOk result (λ x. x ≡ list.now) }
    {
        let table = conns_table(alloc, list)?;
        Ok(Conns {
            list,
            table: Some(table),
        })
    }

    /// All of them.
    pub fn as_slice(&self) -> &'a [ConnBytes]
        ensures { result.now ≡ self.now }
    {
        self.list
    }

    /// The connection of a server and a number.
    fn conn_of(&self, server: ServerNo, id: ConnId) -> Option<&'a ConnBytes>
        ensures { option_copied result ≡ conn_of self.now server id }
    {
        match &self.table {
            None => first_conn(self.list, server, id),
            Some(table) => conn_in(self.list, table, server, id),
        }
    }

    /// What was sent on the connection.
    pub fn sent(&self, server: ServerNo, id: ConnId) -> &'a [u8]
        ensures { result.now ≡ conn_sent self.now server id }
    {
        match self.conn_of(server, id) {
            None => &[],
            Some(conn) => conn.sent.as_slice(),
        }
    }

    /// What was read of the connection.
    pub fn took(&self, server: ServerNo, id: ConnId) -> &'a [u8]
        ensures { result.now ≡ conn_took self.now server id }
    {
        match self.conn_of(server, id) {
            None => &[],
            Some(conn) => conn.took.as_slice(),
        }
    }
}
