//! Reading a whole text.
ghost use Rattle.std.specs.Prelude.{◌≡◌, ◌+◌, ◌≤◌, length, IfOk, IfErr, Ok};
ghost use Rattle.hx_config.specs.Meaning as config_meaning;
ghost use Rattle.hx_config.specs.Views as config_view;
ghost use Rattle.hx_script_parts.specs.Faults.{Gives, Leads, IsFaultOf, stop_at};
ghost use Rattle.hx_script_parts.specs.Lexical.{lines_of};
ghost use Rattle.hx_script_parts.specs.Limits.{longest_text};
ghost use Rattle.hx_script_parts.specs.Meaning as meant;
ghost use Rattle.hx_script_parts.specs.Reading.{nothing_read, closed};
ghost use Rattle.hx_script_parts.specs.Sound.{IsSound};
ghost use Rattle.hx_script_parts.specs.Views.{meaning};
ghost use Rattle.hx_script_parts.specs.declared.fault.Flaw.TheVariants as flaw;
ghost use Rattle.hx_script_parts.specs.declared.fault.Stop.TheVariants as stop;

use crate::fault::{Flaw, Refusal, Rule, Stop, TextFault};
use crate::lines::{Lines, skip_lines, split_line};
use crate::numbers::GREATEST;
use crate::reading::Reading;
use crate::script::Script;
use crate::words::{Words, unless_broken};
use hx_base::Millis;
use hx_config::{Config, ConfigFault, read_config};
use hx_config_parts::same;
use std::alloc::Global;

/// The greatest length of a text.
const LONGEST_TEXT: usize = 1_048_576;

fn at_line(line: u32, refusal: Refusal) -> Stop
    ensures { result ≡ stop_at line refusal }
{
    match refusal {
        Refusal::Memory => Stop::Memory,
        Refusal::Fault(rule) => Stop::At(Flaw::Line { line, rule }),
    }
}

fn broken(line: u32, rule: Rule) -> Stop
    ensures { result ≡ stop.At (flaw.Line line rule) }
{
    Stop::At(Flaw::Line { line, rule })
}

// What stands behind the first line.
fn behind_first(text: &[u8]) -> Result<&[u8], Stop>
    ensures rest { Leads (λ x. x.now) result (meant.behind_first text.now) }
    ensures less { IfOk result (λ x. length x.now ≤ length text.now) }
{
    match split_line(text) {
        Some((line, rest)) if same(line, b"hx-script 1") => Ok(rest),
        _ => Err(broken(1, Rule::BadFirstLine)),
    }
}

// How many lines the configuration has.
fn config_line(words: &mut Words<'_>) -> Result<u64, Refusal>
    ensures { Gives (λ n. n) result (meant.config_line words.old) }
{
    let word = words.word()?;
    unless_broken(!same(word, b"config"), Rule::BadLine)?;
    let count = words.number(0, GREATEST)?;
    words.end()?;
    Ok(count)
}

// The same, and what stands behind the second line, which says it.
fn behind_second(text: &[u8]) -> Result<(u64, &[u8]), Stop>
    ensures rest { Leads (λ x. (x.0, x.1.now)) result (meant.behind_second text.now) }
    ensures less { IfOk result (λ x. length x.1.now ≤ length text.now) }
{
    let Some((line, rest)) = split_line(text) else {
        return Err(broken(2, Rule::BadLine));
    };
    match config_line(&mut Words::of(line)) {
        Ok(count) => Ok((count, rest)),
        Err(refusal) => Err(at_line(2, refusal)),
    }
}

fn configured(alloc: Global, text: &[u8]) -> Result<Config, Stop>
    ensures { Leads config_view.meaning result (meant.configured (config_meaning.meaning_of text.now)) }
{
    match read_config(alloc, text) {
        Ok(config) => Ok(config),
        Err(ConfigFault::NoMemory) => Err(Stop::Memory),
        Err(ConfigFault::At { line, rule }) => Err(Stop::At(Flaw::Config { line, rule })),
    }
}

// The configuration, and what stands behind its lines.
fn behind_config(alloc: Global, count: u64, text: &[u8]) -> Result<(Config, &[u8]), Stop>
    ensures rest { Leads (λ x. (config_view.meaning x.0, x.1.now)) result
        (meant.behind_config count text.now) }
    ensures less { IfOk result (λ x. count + length x.1.now ≤ length text.now) }
{
    let Some(rest) = skip_lines(count, text) else {
        return Err(broken(2, Rule::BadLine));
    };
    let config = configured(alloc, &text[..text.len() - rest.len()])?;
    Ok((config, rest))
}

fn read_lines(alloc: Global, config: &Config, first: u32, text: &[u8]) -> Result<Reading, Stop>
    requires { first + length text.now ≤ 1048579 }
    ensures { Leads (λ r. r) result
        (meant.lines_read (config_view.meaning config.now) first nothing_read (lines_of text.now)) }
{
    let mut reading = Reading::new(alloc);
    let mut lines = Lines::of(text);
    let mut line = first;
    while let Some(bytes) = lines.next() {
        if let Err(refusal) = reading.line(config, line, bytes) {
            return Err(at_line(line, refusal));
        }
        line += 1;
    }
    Ok(reading)
}

fn finish(alloc: Global, config: Config, reading: Reading) -> Result<Script, Refusal>
    requires { IsSound (config_view.meaning config) longest_text reading }
    ensures { Gives meaning result
        (Ok (meant.meaning_with (config_view.meaning config) (closed reading))) }
{
    let mut reading = reading;
    reading.close()?;
    reading.moments.add(Millis(0))?;
    Ok(Script {
        config,
        clients: reading.clients.into_items(),
        plans: reading.plans.into_items(),
        orders: reading.orders.into_items(),
        moments: reading.moments.into_items(alloc)?,
    })
}

#[tactic(auto, unfolding(crate::specs::Meaning::meaning_of))]
fn read_whole(alloc: Global, text: &[u8]) -> Result<Script, Stop>
    ensures { Leads meaning result (meant.meaning_of text.now) }
{
    if text.len() > LONGEST_TEXT {
        return Err(broken(1, Rule::TooLong));
    }
    let rest = behind_first(text)?;
    let (count, rest) = behind_second(rest)?;
    let (config, rest) = behind_config(alloc, count, rest)?;
    let reading = read_lines(alloc, &config, count as u32 + 3, rest)?;
    match finish(alloc, config, reading) {
        Ok(whole) => Ok(whole),
        Err(_) => Err(Stop::Memory),
    }
}

/// The script that a text gives, or its first fault.
///
/// The text has at most 1,048,576 bytes. See docs/FORMATS.md for its lines.
pub fn read_script(alloc: Global, text: &[u8]) -> Result<Script, TextFault>
    // What is read is the meaning of the text, which has no fault.
    ensures reads { IfOk result (λ s. meant.meaning_of text.now ≡ Ok (meaning s)) }
    // A fault is the text's first one, unless memory ran out.
    ensures refused { IfErr result (λ e. IsFaultOf e (meant.meaning_of text.now)) }
{
    match read_whole(alloc, text) {
        Ok(script) => Ok(script),
        Err(Stop::Memory) => Err(TextFault::NoMemory),
        Err(Stop::At(Flaw::Line { line, rule })) => Err(TextFault::At {
            line,
            rule: rule.code(),
        }),
        Err(Stop::At(Flaw::Config { line, rule })) => Err(TextFault::Config { line, rule }),
    }
}
