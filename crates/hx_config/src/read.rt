//! Reading a whole text.
ghost use Rattle.std.specs.Prelude.{◌≡◌, ◌≤◌, [], length, IfOk, IfErr, Ok};
ghost use Rattle.hx_config_parts.specs.Faults.{Leads, IsFaultOf, stop_at};
ghost use Rattle.hx_config_parts.specs.Lexical.{lines_of};
ghost use Rattle.hx_config.specs.Meaning.{lines_read, finished, meaning_of};
ghost use Rattle.hx_config.specs.Sections.{nothing_read, closed};
ghost use Rattle.hx_config.specs.Sound.{IsSound};
ghost use Rattle.hx_config.specs.Views.{meaning};

use crate::config::Config;
use crate::finish::{backs_of, place_all, serve_all};
use crate::reading::Reading;
use hx_base::Items;
use hx_config_parts::{ConfigFault, Flaw, Lines, Refusal, Rule, Stop};
use std::alloc::Global;

/// The greatest length of a text.
const LONGEST_TEXT: usize = 262_144;

fn at_line(line: u32, refusal: Refusal) -> Stop
    ensures { result ≡ stop_at line refusal }
{
    match refusal {
        Refusal::Memory => Stop::Memory,
        Refusal::Fault(rule) => Stop::At(Flaw { line, rule }),
    }
}

fn read_lines(alloc: Global, text: &[u8]) -> Result<Reading, Stop>
    requires { length text.now ≤ 262144 }
    ensures { Leads (λ r. r) result (lines_read 1 nothing_read (lines_of text.now)) }
{
    let mut reading = Reading::new(alloc);
    let mut lines = Lines::of(text);
    let mut line = 1;
    while let Some(bytes) = lines.next() {
        if let Err(refusal) = reading.line(alloc, line, bytes) {
            return Err(at_line(line, refusal));
        }
        line += 1;
    }
    Ok(reading)
}

#[tactic(auto, unfolding(crate::specs::Meaning::finished))]
fn finish(alloc: Global, reading: Reading) -> Result<Config, Stop>
    requires sound { IsSound reading }
    requires over { reading.current.servers ≡ [] }
    ensures { Leads meaning result (finished reading) }
{
    let backs = reading.backs.into_vec();
    let fronts = place_all(alloc, reading.fronts.into_vec(), &backs)?;
    serve_all(&fronts, &backs)?;
    Ok(Config {
        threads: reading.threads,
        fronts: Items::from_vec(fronts),
        backs: Items::from_vec(backs_of(alloc, backs)?),
        passed_over: reading.passed_over.into_items(),
    })
}

#[tactic(auto, unfolding(crate::specs::Meaning::meaning_of))]
fn read_text(alloc: Global, text: &[u8]) -> Result<Config, Stop>
    ensures { Leads meaning result (meaning_of text.now) }
{
    if text.len() > LONGEST_TEXT {
        return Err(Stop::At(Flaw {
            line: 1,
            rule: Rule::TooMany,
        }));
    }
    let mut reading = read_lines(alloc, text)?;
    if reading.close(alloc).is_err() {
        return Err(Stop::Memory);
    }
    finish(alloc, reading)
}

/// The configuration that a text in the form of a HAProxy 2.4 file gives, or its first fault.
///
/// The text has at most 262,144 bytes. See docs/FORMATS.md for its lines.
pub fn read_config(alloc: Global, text: &[u8]) -> Result<Config, ConfigFault>
    // What is read is the meaning of the text, which has no fault.
    ensures meant { IfOk result (λ c. meaning_of text.now ≡ Ok (meaning c)) }
    // A fault is the text's first one, unless memory ran out.
    ensures refused { IfErr result (λ e. IsFaultOf e (meaning_of text.now)) }
{
    match read_text(alloc, text) {
        Ok(config) => Ok(config),
        Err(Stop::Memory) => Err(ConfigFault::NoMemory),
        Err(Stop::At(flaw)) => Err(ConfigFault::At {
            line: flaw.line,
            rule: flaw.rule.code(),
        }),
    }
}
