//! The links of a replay: which session or connection each was, and its bytes.
ghost use Rattle.std.specs.Prelude.{◌≡◌, ◌++◌, All, length, IfOk, OnOk};
ghost use Rattle.hx_told.specs.Links.{TellsBytes, lefts_of, client_links, client_of, clients_of, AddsClient};
ghost use Rattle.hx_told.specs.Links.{conn_of, conns_by, conns_of};

use hx_base::{ConnId, NoMemory, ServerNo};
use hx_link::MemoryLink;
use hx_record::{ClientBytes, ConnBytes, Left, Told};
use std::alloc::Global;

/// The ends of sessions, in order.
///
/// # Errors
/// `NoMemory`.
pub(crate) fn all_lefts(alloc: Global, records: &[Told]) -> Result<Vec<Left>, NoMemory>
    ensures lefts { IfOk result (λ lefts. lefts.items ≡ lefts_of records.now) }
{
    let mut lefts = Vec::new(alloc);
    for told in records {
        match told {
            Told::Left(left) => lefts.push(*left)?,
            Told::Served(_) => {}
        }
    }
    Ok(lefts)
}

fn client_bytes(left: Left, link: MemoryLink) -> Result<ClientBytes, NoMemory>
    ensures client { IfOk result (λ client. client ≡ client_of left link) }
    ensures bytes { OnOk result (TellsBytes link) }
{
    let bytes = link.into_bytes()?;
    Ok(ClientBytes {
        worker: left.worker,
        session: left.session,
        took: bytes.taken,
        gave: bytes.sent,
    })
}

fn conn_bytes(server: ServerNo, id: ConnId, link: MemoryLink) -> Result<ConnBytes, NoMemory>
    ensures conn { IfOk result (λ conn. conn ≡ conn_of (server.0, id.0) link) }
    ensures bytes { OnOk result (TellsBytes link) }
{
    let bytes = link.into_bytes()?;
    Ok(ConnBytes {
        server,
        id,
        sent: bytes.sent,
        took: bytes.taken,
    })
}

/// The bytes of clients and of connections.
#[derive(Drop)]
pub(crate) struct LinkBytes {
    pub clients: Vec<ClientBytes>,
    pub conns: Vec<ConnBytes>,
}

impl LinkBytes {
    /// Adds a link: a connection's where it was dialled, else the next client's.
    ///
    /// # Errors
    /// `NoMemory` for want of memory; and where no more sessions ended.
    fn add(&mut self, lefts: &[Left], link: MemoryLink) -> Result<(), NoMemory>
        ensures clients { OnOk result (AddsClient link.state.dial lefts.now
            self.old.clients.items link self.new.clients.items) }
        ensures bytes { OnOk result (TellsBytes link) }
        ensures conns { OnOk result (self.new.conns.items
            ≡ self.old.conns.items ++ conns_by link.state.dial link) }
    {
        match link.dial() {
            Some((server, id)) => self.conns.push(conn_bytes(server, id, link)?)?,
            None => {
                let Some(left) = lefts.get(self.clients.len()) else {
                    return Err(NoMemory);
                };
                self.clients.push(client_bytes(*left, link)?)?;
            }
        }
        Ok(())
    }
}

/// The bytes of all links, in their order.
///
/// # Errors
/// `NoMemory` for want of memory; and where not just as many sessions ended as there are clients' links.
pub(crate) fn tell_links(
    alloc: Global,
    lefts: &[Left],
    links: Vec<MemoryLink>,
) -> Result<LinkBytes, NoMemory>
    ensures clients { IfOk result (λ told. told.clients.items
        ≡ clients_of lefts.now (client_links links.items)) }
    ensures bytes { OnOk result (All TellsBytes links.items) }
    ensures each { OnOk result (length (client_links links.items) ≡ length lefts.now) }
    ensures conns { IfOk result (λ told. told.conns.items ≡ conns_of links.items) }
{
    let mut told = LinkBytes {
        clients: Vec::new(alloc),
        conns: Vec::new(alloc),
    };
    for link in links {
        told.add(lefts, link)?;
    }
    if told.clients.len() != lefts.len() {
        return Err(NoMemory);
    }
    Ok(told)
}
