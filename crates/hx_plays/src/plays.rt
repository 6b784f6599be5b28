//! The replay of any script of one thread.
ghost use Rattle.std.specs.Prelude.{◌≡◌, IfOk, Ok, length};
ghost use Rattle.hx_script_parts.specs.Meaning.{meaning_of};
ghost use Rattle.hx_script_parts.specs.Views.{meaning};
ghost use Rattle.hx_plays.specs.Plays.{IsPlayOf, IsRunOf, most_turns as turns_for};

use hx_base::NoMemory;
use hx_run::{Halt, run_script};
use hx_script::print_transcript;
use hx_script_parts::{Script, TextFault, read_script};
use hx_told::tell_run;
use std::alloc::Global;

/// What a text is replayed to.
#[derive(Drop)]
pub enum Replay {
    /// The text of the transcript.
    Text(Vec<u8>),
    /// The first fault of the script's configuration: its line there, counted from 1, and the number of its rule.
    ConfigFault { line: u32, rule: u8 },
    /// The first fault of the script: its line, counted from 1, and the number of its rule.
    ScriptFault { line: u32, rule: u8 },
    /// So many turns were made, as many as may be.
    Overrun { turns: u64 },
}

/// The most bytes of a script.
pub const MOST_SCRIPT: usize = 1_048_576;

/// The line of a script that says how long its configuration is.
const CONFIG_LINE: u32 = 2;

/// The rule of a worker that isn't there.
const BAD_WORKER: u8 = 7;

/// How many turns a replay of the script may make.
#[tactic(auto, using(crate::proofs::PlayLemmas::read_is_short))]
fn most_turns(bytes: &[u8], script: &Script) -> u64
    requires reads { meaning_of bytes.now ≡ Ok (meaning script.now) }
    ensures { result ≡ turns_for (length bytes.now) (length script.now.clients) }
{
    16 * bytes.len() as u64 + 64 * script.clients.as_slice().len() as u64
}

/// The replay of a script, which may make so many turns.
#[tactic(auto, using(crate::proofs::PlayLemmas::over_ran))]
fn replay_script(alloc: Global, script: Script, most: u64) -> Result<Replay, NoMemory>
    ensures { IfOk result (IsRunOf (meaning script) most) }
{
    match run_script(alloc, script, most) {
        Ok(ran) => {
            let told = tell_run(alloc, ran)?;
            Ok(Replay::Text(print_transcript(alloc, &told)?))
        }
        Err(Halt::Overrun) => Ok(Replay::Overrun { turns: most }),
        Err(Halt::NoMemory) => Err(NoMemory),
    }
}

/// What the bytes are replayed to, as any script of one thread.
///
/// # Errors
/// `NoMemory` for want of memory.
#[tactic(auto, using(crate::proofs::PlayLemmas::fault_at, crate::proofs::PlayLemmas::threads_fault))]
pub fn replay_any(alloc: Global, bytes: &[u8]) -> Result<Replay, NoMemory>
    ensures { IfOk result (IsPlayOf bytes.now) }
{
    match read_script(alloc, bytes) {
        Ok(script) => {
            if script.config.threads > 1 {
                return Ok(Replay::ScriptFault {
                    line: CONFIG_LINE,
                    rule: BAD_WORKER,
                });
            }
            let most = most_turns(bytes, &script);
            replay_script(alloc, script, most)
        }
        Err(TextFault::At { line, rule }) => Ok(Replay::ScriptFault { line, rule }),
        Err(TextFault::Config { line, rule }) => Ok(Replay::ConfigFault { line, rule }),
        Err(TextFault::NoMemory) => Err(NoMemory),
    }
}
