//! The lines of servers and of their marks.
ghost use Rattle.std.specs.Prelude.{◌≡◌, [], IfOk, Ok};
ghost use Rattle.hx_transcripts_parts.specs.Faults.{Gives};
ghost use Rattle.hx_transcripts.specs.Servers as means;

use crate::form::Form;
use crate::reading::{OpenServer, Reading, RecordsRead, ServersRead};
use hx_base::{Items, Name};
use hx_config_parts::Growing;
use hx_script::ServerPart;
use hx_transcripts_parts::{MarkWord, Refusal, Rule, Words, server_named};
use std::alloc::Global;

fn owned(alloc: Global, name: &[u8]) -> Result<Name, Refusal>
    ensures { Gives (λ n. n) result (Ok name.now) }
{
    Ok(Items::from_vec(Vec::from_slice(alloc, name)?))
}

fn part_of(last: OpenServer) -> ServerPart
    ensures { result ≡ means.part_of last }
{
    ServerPart {
        back: last.back,
        server: last.server,
        rules: last.rules,
        marks: last.marks.into_items(),
    }
}

// All servers so far.
fn closed(read: ServersRead) -> Result<Growing<ServerPart>, Refusal>
    ensures { Gives (λ s. s) result (Ok (means.closed read.done read.current)) }
{
    let mut done = read.done;
    if let Some(last) = read.current {
        done.push(part_of(last))?;
    }
    Ok(done)
}

// A name that no server has.
fn new_names<'a>(
    words: &mut Words<'a>,
    servers: &[ServerPart],
) -> Result<(&'a [u8], &'a [u8]), Refusal>
    ensures { Gives (λ x. ((x.0.now, x.1.now), words.new)) result (means.new_names_at servers.now words.old) }
{
    let (back, server) = words.names()?;
    match server_named(back, server, servers) {
        None => Ok((back, server)),
        Some(_) => Err(Refusal::Fault(Rule::WrongOrder)),
    }
}

fn server_line(read: ServersRead, words: &mut Words<'_>) -> Result<Reading, Refusal>
    ensures { Gives (λ r. r) result (means.server_line read words.old) }
{
    let done = closed(read)?;
    let alloc = done.allocator();
    let (back, server) = new_names(words, done.as_slice())?;
    let rules = words.rules()?;
    let last = OpenServer {
        back: owned(alloc, back)?,
        server: owned(alloc, server)?,
        rules,
        marks: Growing::new(alloc),
    };
    Ok(Reading::Servers(ServersRead {
        done,
        current: Some(last),
    }))
}

fn mark_line(read: ServersRead, first: MarkWord, words: &mut Words<'_>) -> Result<Reading, Refusal>
    ensures { Gives (λ r. r) result (means.mark_line read first words.old) }
{
    let ServersRead { done, current } = read;
    let Some(mut last) = current else {
        return Err(Refusal::Fault(Rule::WrongOrder));
    };
    let mark = words.mark(first)?;
    last.marks.push(mark)?;
    Ok(Reading::Servers(ServersRead {
        done,
        current: Some(last),
    }))
}

// The heading of the records.
fn records_line(read: ServersRead, words: &mut Words<'_>) -> Result<Reading, Refusal>
    ensures { Gives (λ r. r) result (means.records_line read words.old) }
{
    words.end()?;
    let done = closed(read)?;
    let alloc = done.allocator();
    Ok(Reading::Records(RecordsRead {
        servers: done.into_items(),
        records: Growing::new(alloc),
    }))
}

/// Reads a line of this form where servers stand.
#[tactic(auto, unfolding(crate::specs::Servers::servers_said))]
pub fn servers_said(
    read: ServersRead,
    form: Form,
    words: &mut Words<'_>,
) -> Result<Reading, Refusal>
    ensures { Gives (λ r. r) result (means.servers_said read form words.old) }
{
    match form {
        Form::Server => server_line(read, words),
        Form::Mark(first) => mark_line(read, first, words),
        Form::Records => records_line(read, words),
        _ => Err(Refusal::Fault(Rule::WrongOrder)),
    }
}
