//! The rules in the order in which they are tried, each over the whole transcript before the next.
ghost use Rattle.hx_check_parts.specs.Each.{HoldsOfEach};
ghost use Rattle.std.specs.Prelude.{◌≡◌, IfOk};
ghost use Rattle.hx_check.specs.PartsOf.{IsPartsOf};
ghost use Rattle.hx_check.specs.Lines.{told_line};
ghost use Rattle.hx_check.specs.Rules.{MarksHold, LegalMark, ModeMark, RecordAt, LeftAt, ClientAt, ConnAt};
ghost use Rattle.hx_check.specs.Broken.{MarksAreFine};
ghost use Rattle.hx_check.specs.Conns.{line_of};
ghost use Rattle.hx_check.specs.Judged.{Judges};

use crate::breaks::{
    client_break, conn_break, left_break, legal_break, mark_break, record_break, sum_break,
};
use crate::broken::Broken;
use crate::lines::{behind, clients_at, conns_at, pairs_behind, records_at, totals_at};
use crate::marks::MarkRule;
use crate::parts::Parts;
use crate::tiles::ConnBreak;
use hx_base::NoMemory;
use hx_script::Transcript;
use std::alloc::Global;

/// The sixth rule, where the others hold.
fn check_sums(t: &Transcript) -> Option<Broken>
    requires marks { MarksAreFine t.now }
    requires records { HoldsOfEach (RecordAt t.now) t.now.records }
    requires lefts { HoldsOfEach (LeftAt t.now) t.now.records }
    requires clients { HoldsOfEach (ClientAt t.now) t.now.clients }
    requires conns { HoldsOfEach (ConnAt t.now) t.now.conns }
    ensures { Judges t.now result }
{
    match sum_break(t) {
        None => None,
        Some(k) => Some(Broken {
            rule: 6,
            line: behind(totals_at(t), k),
        }),
    }
}

/// The line of a connection that breaks the fifth rule.
fn conn_line(t: &Transcript, at: ConnBreak) -> u32
    ensures { result ≡ told_line (line_of t.now at) }
{
    match at {
        ConnBreak::Sent(k) => pairs_behind(conns_at(t), k),
        ConnBreak::Took(k) => behind(pairs_behind(conns_at(t), k), 1),
    }
}

/// The fifth rule over connections, and what is tried behind it.
fn check_conns(t: &Transcript, by: &Parts<'_>) -> Option<Broken>
    requires parts { IsPartsOf t.now by.now }
    requires marks { MarksAreFine t.now }
    requires records { HoldsOfEach (RecordAt t.now) t.now.records }
    requires lefts { HoldsOfEach (LeftAt t.now) t.now.records }
    requires clients { HoldsOfEach (ClientAt t.now) t.now.clients }
    ensures { Judges t.now result }
{
    match conn_break(t, by) {
        None => check_sums(t),
        Some(at) => Some(Broken {
            rule: 5,
            line: conn_line(t, at),
        }),
    }
}

/// The fifth rule over clients, and what is tried behind it.
fn check_clients(t: &Transcript, by: &Parts<'_>) -> Option<Broken>
    requires parts { IsPartsOf t.now by.now }
    requires marks { MarksAreFine t.now }
    requires records { HoldsOfEach (RecordAt t.now) t.now.records }
    requires lefts { HoldsOfEach (LeftAt t.now) t.now.records }
    ensures { Judges t.now result }
{
    match client_break(t, by) {
        None => check_conns(t, by),
        Some(k) => Some(Broken {
            rule: 5,
            line: pairs_behind(clients_at(t), k),
        }),
    }
}

/// The fifth rule over left lines, and what is tried behind it.
fn check_lefts(t: &Transcript, by: &Parts<'_>) -> Option<Broken>
    requires parts { IsPartsOf t.now by.now }
    requires marks { MarksAreFine t.now }
    requires records { HoldsOfEach (RecordAt t.now) t.now.records }
    ensures { Judges t.now result }
{
    match left_break(t, by) {
        None => check_clients(t, by),
        Some(k) => Some(Broken {
            rule: 5,
            line: behind(records_at(t), k),
        }),
    }
}

/// The fourth rule, and what is tried behind it.
fn check_records(t: &Transcript, by: &Parts<'_>) -> Option<Broken>
    requires parts { IsPartsOf t.now by.now }
    requires marks { MarksAreFine t.now }
    ensures { Judges t.now result }
{
    match record_break(t, by) {
        None => check_lefts(t, by),
        Some(k) => Some(Broken {
            rule: 4,
            line: behind(records_at(t), k),
        }),
    }
}

/// The third rule, and what is tried behind it.
fn check_limit(t: &Transcript, by: &Parts<'_>) -> Option<Broken>
    requires parts { IsPartsOf t.now by.now }
    requires legal { MarksHold LegalMark t.now.servers }
    requires mode { MarksHold ModeMark t.now.servers }
    ensures { Judges t.now result }
{
    match mark_break(t, MarkRule::Limit) {
        None => check_records(t, by),
        Some(line) => Some(Broken { rule: 3, line }),
    }
}

/// The second rule, and what is tried behind it.
fn check_mode(t: &Transcript, by: &Parts<'_>) -> Option<Broken>
    requires parts { IsPartsOf t.now by.now }
    requires legal { MarksHold LegalMark t.now.servers }
    ensures { Judges t.now result }
{
    match mark_break(t, MarkRule::Mode) {
        None => check_limit(t, by),
        Some(line) => Some(Broken { rule: 2, line }),
    }
}

/// The first rule that the transcript breaks, with the first line that breaks it. It takes no memory: each line is looked up
/// among the others, so for n lines it takes up to n * n steps.
pub fn check_transcript(t: &Transcript) -> Option<Broken>
    ensures { Judges t.now result }
{
    match mark_break(t, MarkRule::Legal) {
        None => check_mode(t, &Parts::of(t)),
        Some(line) => Some(Broken { rule: 1, line }),
    }
}

/// The same, with tables of what is looked up, so that for n lines it takes about n log n steps. The one error is want of
/// memory.
pub fn check_by_tables(alloc: Global, t: &Transcript) -> Result<Option<Broken>, NoMemory>
    ensures { IfOk result (Judges t.now) }
{
    match legal_break(alloc, t)? {
        None => {
            let parts = Parts::with_tables(alloc, t)?;
            Ok(check_mode(t, &parts))
        }
        Some(line) => Ok(Some(Broken { rule: 1, line })),
    }
}
