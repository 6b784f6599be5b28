//! The first three rules, over the marks of all servers.
ghost use Rattle.std.specs.Prelude.{◌≡◌, ◌+◌, ℕ, MatchOption, IfOk};
ghost use Rattle.hx_check_parts.specs.Each.{HoldsOfEach, FailsFirst};
ghost use Rattle.hx_check.specs.Lines.{told_line};
ghost use Rattle.hx_check.specs.Rules.{MarksHold, LegalMark};
ghost use Rattle.hx_check.specs.Broken.{MarkBreaks};
ghost use Rattle.hx_check.specs.Asked.{asked_of};

use crate::lines::{behind, behind_server};
use hx_base::NoMemory;
use hx_check_parts::{
    first_against_mode, first_illegal, first_illegal_by_tables, first_past_limit,
};
use hx_script::ServerPart;
use std::alloc::Global;

/// One of the first three rules.
#[derive(Clone, Copy)]
pub(crate) enum MarkRule {
    /// A mark is a step of the connection table.
    Legal,
    /// The server's mode lets it be.
    Mode,
    /// After it no more connections rest than may.
    Limit,
}

/// The first mark of the server that breaks the rule.
fn first_in(rule: MarkRule, part: &ServerPart) -> Option<usize>
    ensures { MatchOption result (HoldsOfEach (asked_of rule part.now) part.now.marks)
        (λ k. FailsFirst (asked_of rule part.now) part.now.marks k) }
{
    let marks = part.marks.as_slice();
    match rule {
        MarkRule::Legal => first_illegal(marks),
        MarkRule::Mode => first_against_mode(part.rules, marks),
        MarkRule::Limit => first_past_limit(part.rules, marks),
    }
}

/// The line of the first mark that breaks the rule.
pub(crate) fn first_mark(rule: MarkRule, servers: &[ServerPart]) -> Option<u32>
    ensures { MatchOption result (MarksHold (asked_of rule) servers.now)
        (λ told. (line : ℕ) × MarkBreaks (asked_of rule) servers.now line × (told ≡ told_line line)) }
{
    let mut line: u32 = 3;
    for (k, part) in servers.iter().enumerate() {
        match first_in(rule, part) {
            None => line = behind_server(line, part),
            Some(mark) => return Some(behind(line, mark)),
        }
    }
    None
}

/// The first mark of the server that breaks the first rule, by tables.
fn illegal_in(alloc: Global, part: &ServerPart) -> Result<Option<usize>, NoMemory>
    ensures { IfOk result (λ first. MatchOption first (HoldsOfEach (LegalMark part.now) part.now.marks)
        (λ k. FailsFirst (LegalMark part.now) part.now.marks k)) }
{
    first_illegal_by_tables(alloc, part.marks.as_slice())
}

/// The line of the first mark that breaks the first rule, by tables. The one error is want of memory.
pub(crate) fn first_illegal_mark(
    alloc: Global,
    servers: &[ServerPart],
) -> Result<Option<u32>, NoMemory>
    ensures { IfOk result (λ first. MatchOption first (MarksHold LegalMark servers.now)
        (λ told. (line : ℕ) × MarkBreaks LegalMark servers.now line × (told ≡ told_line line))) }
{
    let mut line: u32 = 3;
    for (k, part) in servers.iter().enumerate() {
        match illegal_in(alloc, part)? {
            None => line = behind_server(line, part),
            Some(mark) => return Ok(Some(behind(line, mark))),
        }
    }
    Ok(None)
}
