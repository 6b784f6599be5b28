//! The beginning of a run: its words, its file, its check, and where it listens.
ghost use Rattle.std.specs.Prelude.{◌≡◌};
ghost use Rattle.hx_config.specs.Limits.{HasThreads};
ghost use Rattle.hx_startup.specs.Options.{words_of};
ghost use Rattle.hx_startup.specs.Starts.{HasCause, ReadsConfig, EndsBy, EndsCheck, IsThreads};

use crate::check::{check_text, fault_text};
use crate::ending::Ending;
use crate::file::{FileFault, read_file};
use crate::listening::listen_all;
use crate::options::{Refusal, read_options};
use crate::plan::Plan;
use hx_config::{Config, ConfigFault, read_config};
use hx_doors::{Cabinet, Door};
use std::alloc::Global;

/// What a run begins with.
#[derive(Drop)]
pub enum Start {
    /// The door listens, and this is to be served.
    Serve(Plan),
    /// The run is over.
    Over(Ending),
}

/// The line that tells a fault.
fn fault_ending(alloc: Global, fault: ConfigFault) -> Ending
    ensures { EndsBy fault result }
{
    match fault {
        ConfigFault::At { line, rule } => match fault_text(alloc, line, rule) {
            Ok(text) => Ending::ConfigFault(text),
            Err(_) => Ending::NoMemory,
        },
        ConfigFault::NoMemory => Ending::NoMemory,
    }
}

/// Reads the configuration of that name.
fn read<F: Cabinet>(alloc: Global, cabinet: &mut F, name: &str) -> Result<Config, Ending>
    ensures { ReadsConfig name.now (F.state cabinet.old) (F.state cabinet.new) result }
{
    let bytes = match read_file(alloc, cabinet, name) {
        Ok(bytes) => bytes,
        Err(FileFault::Fault) => return Err(Ending::SourceFault),
        Err(FileFault::NoMemory) => return Err(Ending::NoMemory),
    };
    match read_config(alloc, bytes.as_slice()) {
        Ok(config) => Ok(config),
        Err(fault) => Err(fault_ending(alloc, fault)),
    }
}

fn threads_of(options: Option<u8>, own: u8) -> u8
    requires own { HasThreads own }
    ensures within { HasThreads result }
    ensures said { IsThreads options own result }
{
    match options {
        Some(n) => n.clamp(1, 16),
        None => own,
    }
}

/// The end of a check.
fn check(alloc: Global, config: &Config) -> Ending
    ensures { EndsCheck config.now.passed_over result }
{
    match check_text(alloc, config.passed_over.as_slice()) {
        Ok(text) => Ending::Done(text),
        Err(_) => Ending::NoMemory,
    }
}

/// Reads the words, without the program's name, and the configuration's file. A check ends there; else the door begins to
/// listen at each address of the configuration.
///
/// Faults are found in the order words, file, configuration, listening.
pub fn start_up<F: Cabinet, D: Door>(
    alloc: Global,
    words: &[String],
    cabinet: &mut F,
    door: &mut D,
) -> Start
    ensures { HasCause (words_of words.now) (F.state cabinet.old) (F.state cabinet.new) (D.state door.old) (D.state door.new) result }
{
    let options = match read_options(alloc, words) {
        Ok(options) => options,
        Err(Refusal::Words(text)) => return Start::Over(Ending::Usage(text)),
        Err(Refusal::NoMemory) => return Start::Over(Ending::NoMemory),
    };
    let config = match read(alloc, cabinet, options.config) {
        Ok(config) => config,
        Err(ending) => return Start::Over(ending),
    };
    if options.check {
        return Start::Over(check(alloc, &config));
    }
    if listen_all(door, config.fronts.as_slice()).is_err() {
        return Start::Over(Ending::ListenFault);
    }
    let threads = threads_of(options.threads, config.threads);
    Start::Serve(Plan { config, threads })
}
