//! A run of the program.
ghost use Rattle.std.specs.Prelude.{◌≡◌, ◌⊎◌, ◌∷◌, [], codes};
ghost use Rattle.hx_base.specs.Counts.{Rose};
ghost use Rattle.hx_link.specs.Whole.{WritesAll};
ghost use Rattle.hx_replay.specs.Commands.{words_of, NoCommand};
ghost use Rattle.hx_replay.specs.Texts.{usage_text, unbuilt_text};
ghost use Rattle.hx_replay.specs.Endings.{HasCause, IsRun, IsDone, IsRefused, IsFaulty, IsOverrun, IsBroken, IsUnbuilt, IsEndingOf, TellsFault, TellsScriptFault, TellsTurns};

use crate::check::check_source;
use crate::command::{Command, command_of};
use crate::ending::{Ending, status, text};
use crate::texts::{numbers_line, turns_line};
use hx_link::{ReadFault, Sink, Source, read_all, write_all};
use hx_plays::{MOST_SCRIPT, Replay, replay_any};
use std::alloc::Global;

/// The rule of a script that is too long.
const TOO_LONG: u8 = 10;

fn config_fault(alloc: Global, line: u32, rule: u8) -> Ending
    ensures { TellsFault line rule result }
{
    match numbers_line(alloc, b"config ", u64::from(line), u64::from(rule)) {
        Ok(text) => Ending::ConfigFault(text),
        Err(_) => Ending::NoMemory,
    }
}

fn script_fault(alloc: Global, line: u32, rule: u8) -> Ending
    ensures { TellsScriptFault line rule result }
{
    match numbers_line(alloc, b"script ", u64::from(line), u64::from(rule)) {
        Ok(text) => Ending::ScriptFault(text),
        Err(_) => Ending::NoMemory,
    }
}

fn overrun(alloc: Global, turns: u64) -> Ending
    ensures { TellsTurns turns result }
{
    match turns_line(alloc, turns) {
        Ok(text) => Ending::Overrun(text),
        Err(_) => Ending::NoMemory,
    }
}

/// A replay of these bytes.
fn replay(alloc: Global, bytes: &[u8]) -> Ending
    ensures { IsEndingOf bytes.now result }
{
    match replay_any(alloc, bytes) {
        Ok(Replay::Text(text)) => Ending::Done(text),
        Ok(Replay::ConfigFault { line, rule }) => config_fault(alloc, line, rule),
        Ok(Replay::ScriptFault { line, rule }) => script_fault(alloc, line, rule),
        Ok(Replay::Overrun { turns }) => overrun(alloc, turns),
        Err(_) => Ending::NoMemory,
    }
}

fn replay_source<S: Source>(alloc: Global, source: &mut S) -> Ending
    ensures { HasCause (codes "replay" ∷ []) (S.state source.old) (S.state source.new) result }
{
    match read_all(alloc, source, MOST_SCRIPT) {
        Ok(bytes) => {
            if bytes.len() > MOST_SCRIPT {
                script_fault(alloc, 1, TOO_LONG)
            } else {
                replay(alloc, bytes.as_slice())
            }
        }
        Err(ReadFault::Fault) => Ending::SourceFault,
        Err(ReadFault::NoMemory) => Ending::NoMemory,
    }
}

fn run<S: Source>(alloc: Global, words: &[String], source: &mut S) -> Ending
    ensures { HasCause (words_of words.now) (S.state source.old) (S.state source.new) result }
{
    match command_of(words) {
        None => Ending::Usage,
        Some(Command::Replay) => replay_source(alloc, source),
        Some(Command::Check) => check_source(alloc, source),
        Some(Command::Drill) => Ending::Unbuilt,
    }
}

/// The program: it does what the words ask for, and answers the status.
///
/// 0 a transcript was printed, or the one that was read holds; 1 the words are no command; 2 the source failed; 3 the sink
/// failed; 4 the script's configuration has a fault; 5 the script or the transcript has one; 6 as many turns were made as may
/// be; 7 the transcript breaks a rule; 8 what is asked for isn't built yet; 9 want of memory.
pub fn replay_main<R, S: Source, K: Sink>(
    rt: &R,
    alloc: Global,
    words: &[String],
    source: &mut S,
    sink: &mut K,
) -> u8
    ensures run { IsRun (words_of words.now) (S.state source.old) (S.state source.new) (K.state sink.old) (K.state sink.new) result }
    ensures done { result ≡ 0
        → IsDone (words_of words.now) (S.state source.old) (S.state source.new) (K.state sink.old) (K.state sink.new) }
    ensures usage { result ≡ 1 → NoCommand (words_of words.now) × WritesAll (K.state sink.old) (K.state sink.new) usage_text }
    ensures source { result ≡ 2
        → Rose (S.state source.old).faults (S.state source.new).faults × (K.state sink.new ≡ K.state sink.old) }
    ensures sink { result ≡ 3 → Rose (K.state sink.old).faults (K.state sink.new).faults }
    ensures config { result ≡ 4
        → IsRefused (words_of words.now) (S.state source.old) (S.state source.new) (K.state sink.old) (K.state sink.new) }
    ensures faulty { result ≡ 5
        → IsFaulty (words_of words.now) (S.state source.old) (S.state source.new) (K.state sink.old) (K.state sink.new) }
    ensures overrun { result ≡ 6
        → IsOverrun (words_of words.now) (S.state source.old) (S.state source.new) (K.state sink.old) (K.state sink.new) }
    ensures broken { result ≡ 7
        → IsBroken (words_of words.now) (S.state source.old) (S.state source.new) (K.state sink.old) (K.state sink.new) }
    ensures unbuilt { result ≡ 8
        → IsUnbuilt (words_of words.now) (S.state source.old) (S.state source.new)
        × WritesAll (K.state sink.old) (K.state sink.new) unbuilt_text }
    ensures known { (result ≡ 0) ⊎ (result ≡ 1) ⊎ (result ≡ 2) ⊎ (result ≡ 3) ⊎ (result ≡ 4) ⊎ (result ≡ 5)
        ⊎ (result ≡ 6) ⊎ (result ≡ 7) ⊎ (result ≡ 8) ⊎ (result ≡ 9) }
{
    let _rt = rt;
    let ending = run(alloc, words, source);
    match write_all(sink, text(&ending)) {
        Ok(()) => status(&ending),
        Err(_) => 3,
    }
}
