//! The program: it runs a scripted case over links in memory and prints what each connection and session did.
#![tactic(auto)]

mod check;
mod command;
mod ending;
mod run;
#[cfg(test)]
mod tests;
mod texts;

pub use command::{Command, command_of};
pub use ending::Ending;
use hx_link::{Reading, Writing};
pub use run::replay_main;
use std::env;
use std::io::ErrorKind;
use std::process::ExitCode;

/// The words after the program's name. Where one is no UTF-8 there is none, which is no command.
fn words(rt: &HostRuntime) -> Option<Vec<String>> {
    let mut words = Vec::new(rt.alloc());
    match env::args(rt) {
        Ok(args) => {
            for word in args.skip(1) {
                words.push(word).ok()?;
            }
        }
        Err(error) => {
            if error.kind() != ErrorKind::InvalidData {
                return None;
            }
        }
    }
    Some(words)
}

/// Standard input is the source, and standard output the sink.
fn main(rt: HostRuntime) -> ExitCode {
    match words(&rt) {
        None => ExitCode::from(9),
        Some(words) => {
            let mut source = Reading::new(rt.stdin());
            let mut sink = Writing::new(rt.stdout());
            let status = replay_main(&rt, rt.alloc(), words.as_slice(), &mut source, &mut sink);
            ExitCode::from(status)
        }
    }
}
