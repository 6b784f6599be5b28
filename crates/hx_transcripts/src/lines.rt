//! What each line does.
ghost use Rattle.std.specs.Prelude.{◌≡◌};
ghost use Rattle.hx_transcripts_parts.specs.Faults.{Gives};
ghost use Rattle.hx_transcripts.specs.Lines as means;

use crate::form::{Form, form_of};
use crate::links::{clients_said, conns_said};
use crate::reading::{Reading, ServersRead};
use crate::records::records_said;
use crate::servers::servers_said;
use crate::sums::totals_said;
use hx_config_parts::Growing;
use hx_transcripts_parts::{Refusal, Rule, Words};
use std::alloc::Global;

/// Behind the first line. It takes no memory.
pub fn begun(alloc: Global) -> Reading
    ensures { result ≡ means.nothing_read }
{
    Reading::Servers(ServersRead {
        done: Growing::new(alloc),
        current: None,
    })
}

fn said(read: Reading, form: Form, line: &[u8], words: &mut Words<'_>) -> Result<Reading, Refusal>
    ensures { Gives (λ r. r) result (means.said read form line.now words.old) }
{
    match read {
        Reading::Servers(read) => servers_said(read, form, words),
        Reading::Records(read) => records_said(read, form, words),
        Reading::Clients(read) => clients_said(read, form, words),
        Reading::Conns(read) => conns_said(read, form, words),
        Reading::Totals(read) => totals_said(read, form, line, words),
        Reading::Over(_) => Err(Refusal::Fault(Rule::WrongOrder)),
    }
}

/// Reads a line.
#[tactic(auto, unfolding(crate::specs::Lines::line_read))]
pub fn read_line(read: Reading, line: &[u8]) -> Result<Reading, Refusal>
    ensures { Gives (λ r. r) result (means.line_read read line.now) }
{
    let mut words = Words::of(line);
    let word = words.word()?;
    let form = form_of(word)?;
    said(read, form, line, &mut words)
}
