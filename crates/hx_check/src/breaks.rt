//! Each rule over the transcript's own parts.
ghost use Rattle.std.specs.Prelude.{◌≡◌, ℕ, MatchOption, IfOk};
ghost use Rattle.hx_check_parts.specs.Each.{HoldsOfEach, FailsFirst};
ghost use Rattle.hx_check.specs.Lines.{told_line};
ghost use Rattle.hx_check.specs.PartsOf.{IsPartsOf};
ghost use Rattle.hx_check.specs.Rules.{MarksHold, LegalMark, RecordAt, LeftAt, ClientAt, ConnAt, TotalsAt};
ghost use Rattle.hx_check.specs.Broken.{MarkBreaks};
ghost use Rattle.hx_check.specs.Asked.{asked_of};
ghost use Rattle.hx_check.specs.Conns.{IsFirst};

use crate::marks::{MarkRule, first_illegal_mark, first_mark};
use crate::parts::Parts;
use crate::records::first_false;
use crate::sums::first_sum;
use crate::tiles::{ConnBreak, first_conn};
use hx_base::NoMemory;
use hx_check_parts::{first_loose_left, first_without_left};
use hx_script::Transcript;
use std::alloc::Global;

pub(crate) fn mark_break(t: &Transcript, rule: MarkRule) -> Option<u32>
    ensures { MatchOption result (MarksHold (asked_of rule) t.now.servers)
        (λ told. (line : ℕ) × MarkBreaks (asked_of rule) t.now.servers line × (told ≡ told_line line)) }
{
    first_mark(rule, t.servers.as_slice())
}

/// The first mark that breaks the first rule, by tables.
pub(crate) fn legal_break(alloc: Global, t: &Transcript) -> Result<Option<u32>, NoMemory>
    ensures { IfOk result (λ first. MatchOption first (MarksHold LegalMark t.now.servers)
        (λ told. (line : ℕ) × MarkBreaks LegalMark t.now.servers line × (told ≡ told_line line))) }
{
    first_illegal_mark(alloc, t.servers.as_slice())
}

pub(crate) fn record_break(t: &Transcript, by: &Parts<'_>) -> Option<usize>
    requires { IsPartsOf t.now by.now }
    ensures { MatchOption result (HoldsOfEach (RecordAt t.now) t.now.records)
        (λ k. FailsFirst (RecordAt t.now) t.now.records k) }
{
    first_false(&by.clients, &by.conns, by.records.as_slice())
}

pub(crate) fn left_break(t: &Transcript, by: &Parts<'_>) -> Option<usize>
    requires { IsPartsOf t.now by.now }
    ensures { MatchOption result (HoldsOfEach (LeftAt t.now) t.now.records)
        (λ k. FailsFirst (LeftAt t.now) t.now.records k) }
{
    first_loose_left(&by.clients, &by.records)
}

pub(crate) fn client_break(t: &Transcript, by: &Parts<'_>) -> Option<usize>
    requires { IsPartsOf t.now by.now }
    ensures { MatchOption result (HoldsOfEach (ClientAt t.now) t.now.clients)
        (λ k. FailsFirst (ClientAt t.now) t.now.clients k) }
{
    first_without_left(&by.clients, &by.records)
}

pub(crate) fn conn_break(t: &Transcript, by: &Parts<'_>) -> Option<ConnBreak>
    requires { IsPartsOf t.now by.now }
    ensures { MatchOption result (HoldsOfEach (ConnAt t.now) t.now.conns)
        (IsFirst t.now.records t.now.conns) }
{
    first_conn(&by.records, by.conns.as_slice())
}

pub(crate) fn sum_break(t: &Transcript) -> Option<usize>
    ensures { MatchOption result (HoldsOfEach (TotalsAt t.now) t.now.totals)
        (λ k. FailsFirst (TotalsAt t.now) t.now.totals k) }
{
    first_sum(t.servers.as_slice(), t.totals.as_slice())
}
