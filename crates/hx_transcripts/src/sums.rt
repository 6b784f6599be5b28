//! The lines of totals.
ghost use Rattle.std.specs.Prelude.{◌≡◌};
ghost use Rattle.hx_transcripts_parts.specs.Faults.{Gives};
ghost use Rattle.hx_transcripts.specs.Sums as means;

use crate::form::Form;
use crate::reading::{Parts, Reading, TotalsRead};
use hx_script::ServerPart;
use hx_transcripts_parts::{Refusal, Rule, Words, server_named};

// The name of a server that is there.
fn named(servers: &[ServerPart], words: &mut Words<'_>) -> Result<usize, Refusal>
    ensures { Gives (λ i. (i, words.new)) result (means.named_at servers.now words.old) }
{
    let (back, server) = words.names()?;
    match server_named(back, server, servers) {
        Some(i) => Ok(i),
        None => Err(Refusal::Fault(Rule::NoSuchName)),
    }
}

fn total_line(read: TotalsRead, line: &[u8]) -> Result<Reading, Refusal>
    ensures { Gives (λ r. r) result (means.total_line read line.now) }
{
    let mut read = read;
    let mut words = Words::of(line);
    let server = named(read.servers.as_slice(), &mut words)?;
    if server != read.totals.len() {
        return Err(Refusal::Fault(Rule::WrongOrder));
    }
    let totals = words.totals()?;
    read.totals.push(totals)?;
    Ok(Reading::Totals(read))
}

// The last line.
fn end_line(read: TotalsRead, words: &mut Words<'_>) -> Result<Reading, Refusal>
    ensures { Gives (λ r. r) result (means.end_line read words.old) }
{
    if read.totals.len() != read.servers.as_slice().len() {
        return Err(Refusal::Fault(Rule::WrongOrder));
    }
    words.end()?;
    Ok(Reading::Over(Parts {
        servers: read.servers,
        records: read.records,
        clients: read.clients,
        conns: read.conns,
        totals: read.totals.into_items(),
    }))
}

/// Reads a line of this form where totals stand.
#[tactic(auto, unfolding(crate::specs::Sums::totals_said))]
pub fn totals_said(
    read: TotalsRead,
    form: Form,
    line: &[u8],
    words: &mut Words<'_>,
) -> Result<Reading, Refusal>
    ensures { Gives (λ r. r) result (means.totals_said read form line.now words.old) }
{
    match form {
        Form::Total => total_line(read, line),
        Form::End => end_line(read, words),
        _ => Err(Refusal::Fault(Rule::WrongOrder)),
    }
}
