//! What was read so far.

use hx_base::{Bytes, ConnId, Items, Name, PoolRules, ServerNo, SessionNo, ThreadNo, Totals};
use hx_config_parts::Growing;
use hx_pool::Entry;
use hx_record::{ClientBytes, ConnBytes, Told};
use hx_script::ServerPart;

/// The server of the last `server` line, with its marks so far.
#[derive(Drop)]
pub struct OpenServer {
    pub back: Name,
    pub server: Name,
    pub rules: PoolRules,
    pub marks: Growing<Entry>,
}

/// The servers whose lines are over, and the one that is open.
#[derive(Drop)]
pub struct ServersRead {
    pub done: Growing<ServerPart>,
    pub current: Option<OpenServer>,
}

/// All servers, and the records so far.
#[derive(Drop)]
pub struct RecordsRead {
    pub servers: Items<ServerPart>,
    pub records: Growing<Told>,
}

/// A client of which only what was taken was read.
#[derive(Drop)]
pub struct HalfClient {
    pub worker: ThreadNo,
    pub session: SessionNo,
    pub took: Bytes,
}

/// All up to the records, and the clients so far.
#[derive(Drop)]
pub struct ClientsRead {
    pub servers: Items<ServerPart>,
    pub records: Items<Told>,
    pub clients: Growing<ClientBytes>,
    pub half: Option<HalfClient>,
}

/// A connection of which only what was sent was read.
#[derive(Drop)]
pub struct HalfConn {
    pub server: ServerNo,
    pub id: ConnId,
    pub sent: Bytes,
}

/// All up to the clients, and the connections so far.
#[derive(Drop)]
pub struct ConnsRead {
    pub servers: Items<ServerPart>,
    pub records: Items<Told>,
    pub clients: Items<ClientBytes>,
    pub conns: Growing<ConnBytes>,
    pub half: Option<HalfConn>,
}

/// All up to the connections, and the totals so far.
#[derive(Drop)]
pub struct TotalsRead {
    pub servers: Items<ServerPart>,
    pub records: Items<Told>,
    pub clients: Items<ClientBytes>,
    pub conns: Items<ConnBytes>,
    pub totals: Growing<Totals>,
}

/// The parts of a transcript.
#[derive(Drop)]
pub struct Parts {
    pub servers: Items<ServerPart>,
    pub records: Items<Told>,
    pub clients: Items<ClientBytes>,
    pub conns: Items<ConnBytes>,
    pub totals: Items<Totals>,
}

/// Which part of a text comes next, and what stood before it.
#[derive(Drop)]
pub enum Reading {
    Servers(ServersRead),
    Records(RecordsRead),
    Clients(ClientsRead),
    Conns(ConnsRead),
    Totals(TotalsRead),
    Over(Parts),
}
