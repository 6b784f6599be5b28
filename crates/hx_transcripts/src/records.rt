//! The lines of records.
ghost use Rattle.std.specs.Prelude.{◌≡◌};
ghost use Rattle.hx_transcripts_parts.specs.Faults.{Gives};
ghost use Rattle.hx_transcripts.specs.Records as means;

use crate::form::Form;
use crate::reading::{ClientsRead, Reading, RecordsRead};
use hx_config_parts::Growing;
use hx_transcripts_parts::{RecordWord, Refusal, Rule, Words};

fn record_line(
    read: RecordsRead,
    first: RecordWord,
    words: &mut Words<'_>,
) -> Result<Reading, Refusal>
    ensures { Gives (λ r. r) result (means.record_line read first words.old) }
{
    let mut read = read;
    let told = words.told(read.servers.as_slice(), first)?;
    read.records.push(told)?;
    Ok(Reading::Records(read))
}

// The heading of the links.
fn links_line(read: RecordsRead, words: &mut Words<'_>) -> Result<Reading, Refusal>
    ensures { Gives (λ r. r) result (means.links_line read words.old) }
{
    words.end()?;
    let alloc = read.records.allocator();
    Ok(Reading::Clients(ClientsRead {
        servers: read.servers,
        records: read.records.into_items(),
        clients: Growing::new(alloc),
        half: None,
    }))
}

/// Reads a line of this form where records stand.
#[tactic(auto, unfolding(crate::specs::Records::records_said))]
pub fn records_said(
    read: RecordsRead,
    form: Form,
    words: &mut Words<'_>,
) -> Result<Reading, Refusal>
    ensures { Gives (λ r. r) result (means.records_said read form words.old) }
{
    match form {
        Form::Record(first) => record_line(read, first, words),
        Form::Links => links_line(read, words),
        _ => Err(Refusal::Fault(Rule::WrongOrder)),
    }
}
