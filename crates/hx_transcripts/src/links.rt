//! The lines of links' bytes.
ghost use Rattle.std.specs.Prelude.{◌≡◌, if◌then◌else◌};
ghost use Rattle.hx_transcripts_parts.specs.Faults.{Gives};
ghost use Rattle.hx_transcripts_parts.specs.Lexical.{read_word};
ghost use Rattle.hx_transcripts.specs.Links as means;

use crate::form::Form;
use crate::reading::{ClientsRead, ConnsRead, HalfClient, HalfConn, Reading, TotalsRead};
use hx_base::{Bytes, ConnId, ServerNo, SessionNo, ThreadNo};
use hx_config_parts::{Growing, same};
use hx_record::{ClientBytes, ConnBytes};
use hx_transcripts_parts::{Refusal, Rule, Words};
use std::alloc::Global;

fn is_before(first: u64, second: u64, next_first: u64, next_second: u64) -> bool
    ensures { result ≡ means.is_before first second next_first next_second }
{
    first < next_first || (first == next_first && second < next_second)
}

// The session stands behind all clients so far.
fn follows_clients(clients: &[ClientBytes], worker: ThreadNo, session: SessionNo) -> bool
    ensures { result ≡ means.follows_clients clients.now worker session }
{
    match clients.last() {
        None => true,
        Some(last) => is_before(
            last.worker.0 as u64,
            last.session.0 as u64,
            worker.0 as u64,
            session.0 as u64,
        ),
    }
}

// The connection stands behind all connections so far.
fn follows_conns(conns: &[ConnBytes], server: ServerNo, id: ConnId) -> bool
    ensures { result ≡ means.follows_conns conns.now server id }
{
    match conns.last() {
        None => true,
        Some(last) => is_before(last.server.0 as u64, last.id.0, server.0 as u64, id.0),
    }
}

// Which of the two texts of a link the word announces: this one, and not the other.
fn must_be(word: &[u8], this: &[u8], other: &[u8]) -> Result<(), Refusal>
    ensures { Gives (λ _. tt) result (means.label_in this.now other.now word.now) }
{
    if same(word, this) {
        Ok(())
    } else if same(word, other) {
        Err(Refusal::Fault(Rule::WrongOrder))
    } else {
        Err(Refusal::Fault(Rule::BadLine))
    }
}

// The label and the byte text that end a line.
fn bytes_behind(
    alloc: Global,
    words: &mut Words<'_>,
    this: &[u8],
    other: &[u8],
) -> Result<Bytes, Refusal>
    ensures { Gives (λ b. b) result (means.bytes_at this.now other.now words.old) }
{
    let word = words.word()?;
    must_be(word, this, other)?;
    let bytes = words.text(alloc)?;
    words.end()?;
    Ok(bytes)
}

// What was taken of the next client.
fn client_took(clients: &Growing<ClientBytes>, words: &mut Words<'_>) -> Result<HalfClient, Refusal>
    ensures { Gives (λ h. h) result (means.client_took clients.now words.old) }
{
    let (worker, session) = words.who()?;
    if !follows_clients(clients.as_slice(), worker, session) {
        return Err(Refusal::Fault(Rule::WrongOrder));
    }
    let took = bytes_behind(clients.allocator(), words, b"took", b"gave")?;
    Ok(HalfClient {
        worker,
        session,
        took,
    })
}

// What was given to the same client.
fn client_gave(
    alloc: Global,
    half: HalfClient,
    words: &mut Words<'_>,
) -> Result<ClientBytes, Refusal>
    ensures { Gives (λ c. c) result (means.client_gave half words.old) }
{
    let (worker, session) = words.who()?;
    if worker != half.worker || session != half.session {
        return Err(Refusal::Fault(Rule::WrongOrder));
    }
    let gave = bytes_behind(alloc, words, b"gave", b"took")?;
    Ok(ClientBytes {
        worker,
        session,
        took: half.took,
        gave,
    })
}

fn client_line(read: ClientsRead, words: &mut Words<'_>) -> Result<Reading, Refusal>
    ensures { Gives (λ r. r) result (means.client_line read words.old) }
{
    let mut read = read;
    match read.half.take() {
        None => read.half = Some(client_took(&read.clients, words)?),
        Some(half) => {
            let client = client_gave(read.clients.allocator(), half, words)?;
            read.clients.push(client)?;
        }
    }
    Ok(Reading::Clients(read))
}

// What was sent on the next connection.
fn conn_sent(read: &ConnsRead, words: &mut Words<'_>) -> Result<HalfConn, Refusal>
    ensures { Gives (λ h. h) result (means.conn_sent read.now words.old) }
{
    let (server, id) = words.conn(read.servers.as_slice())?;
    if !follows_conns(read.conns.as_slice(), server, id) {
        return Err(Refusal::Fault(Rule::WrongOrder));
    }
    let sent = bytes_behind(read.conns.allocator(), words, b"sent", b"took")?;
    Ok(HalfConn { server, id, sent })
}

// What was taken of the same connection.
fn conn_took(read: &ConnsRead, half: HalfConn, words: &mut Words<'_>) -> Result<ConnBytes, Refusal>
    ensures { Gives (λ c. c) result (means.conn_took read.now half words.old) }
{
    let (server, id) = words.conn(read.servers.as_slice())?;
    if server != half.server || id != half.id {
        return Err(Refusal::Fault(Rule::WrongOrder));
    }
    let took = bytes_behind(read.conns.allocator(), words, b"took", b"sent")?;
    Ok(ConnBytes {
        server,
        id,
        sent: half.sent,
        took,
    })
}

fn conn_line(read: ConnsRead, words: &mut Words<'_>) -> Result<Reading, Refusal>
    ensures { Gives (λ r. r) result (means.conn_line read words.old) }
{
    let mut read = read;
    match read.half.take() {
        None => read.half = Some(conn_sent(&read, words)?),
        Some(half) => {
            let conn = conn_took(&read, half, words)?;
            read.conns.push(conn)?;
        }
    }
    Ok(Reading::Conns(read))
}

// The clients are all there.
fn past_clients(read: ClientsRead) -> Result<ConnsRead, Refusal>
    ensures { Gives (λ r. r) result (means.past_clients read) }
{
    if read.half.is_some() {
        return Err(Refusal::Fault(Rule::WrongOrder));
    }
    let alloc = read.clients.allocator();
    Ok(ConnsRead {
        servers: read.servers,
        records: read.records,
        clients: read.clients.into_items(),
        conns: Growing::new(alloc),
        half: None,
    })
}

// The heading of the totals.
fn totals_line(read: ConnsRead, words: &mut Words<'_>) -> Result<Reading, Refusal>
    ensures { Gives (λ r. r) result (means.totals_line read words.old) }
{
    if read.half.is_some() {
        return Err(Refusal::Fault(Rule::WrongOrder));
    }
    words.end()?;
    let alloc = read.conns.allocator();
    Ok(Reading::Totals(TotalsRead {
        servers: read.servers,
        records: read.records,
        clients: read.clients,
        conns: read.conns.into_items(),
        totals: Growing::new(alloc),
    }))
}

/// Reads a line of this form where connections stand.
#[tactic(auto, unfolding(crate::specs::Links::conns_said))]
pub fn conns_said(read: ConnsRead, form: Form, words: &mut Words<'_>) -> Result<Reading, Refusal>
    ensures { Gives (λ r. r) result (means.conns_said read form words.old) }
{
    match form {
        Form::Conn => conn_line(read, words),
        Form::Totals => totals_line(read, words),
        _ => Err(Refusal::Fault(Rule::WrongOrder)),
    }
}

/// Reads a line of this form where clients stand.
#[tactic(auto, unfolding(crate::specs::Links::clients_said))]
pub fn clients_said(
    read: ClientsRead,
    form: Form,
    words: &mut Words<'_>,
) -> Result<Reading, Refusal>
    ensures { Gives (λ r. r) result (means.clients_said read form words.old) }
{
    match form {
        Form::Client => client_line(read, words),
        _ => conns_said(past_clients(read)?, form, words),
    }
}
