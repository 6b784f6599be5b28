//! The words of the command line.
ghost use Rattle.std.specs.Prelude.{◌≡◌, IfOk, IfErr, IsTrue, ◌↔◌, codes, Some, false};
ghost use Rattle.clap.specs.Words.{app_of, first_value, found_of, kind_of, rule_of};
ghost use Rattle.hx_startup.specs.Options.{proxy_app, config_rule, threads_rule, check_rule, words_of, IsTaken, IsRefusedFor, RefusesBy};

use clap::error::ErrorKind;
use clap::{Arg, ArgAction, ArgMatches, Command, Error, value_parser};
use hx_base::NoMemory;
use std::alloc::{AllocError, Global};

/// What the words ask for.
#[derive(Drop)]
pub struct Options<'a> {
    /// The name of the configuration's file.
    pub config: &'a str,
    /// How many threads, in place of the configuration's number.
    pub threads: Option<u8>,
    /// The configuration is only read, and told about.
    pub check: bool,
}

/// Why words aren't taken.
#[derive(Drop)]
pub enum Refusal {
    /// They aren't the command's. The text says so.
    Words(Vec<u8>),
    NoMemory,
}

fn config_arg<'a>(alloc: Global) -> Arg<'a>
    ensures rule { rule_of result ≡ config_rule }
    ensures local { result.global ≡ false }
{
    Arg::new(alloc, "config")
        .long("config")
        .required(true)
        .action(ArgAction::Set)
        .help("The configuration, in the form of a HAProxy 2.4 file")
}

fn threads_arg<'a>(alloc: Global) -> Arg<'a>
    ensures rule { rule_of result ≡ threads_rule }
    ensures local { result.global ≡ false }
{
    Arg::new(alloc, "threads")
        .long("threads")
        .action(ArgAction::Set)
        .value_parser(value_parser!(u8).range(1..17))
        .help("How many threads, 1 to 16, in place of nbthread")
}

fn check_arg<'a>(alloc: Global) -> Arg<'a>
    ensures rule { rule_of result ≡ check_rule }
    ensures local { result.global ≡ false }
{
    Arg::new(alloc, "check")
        .long("check")
        .action(ArgAction::SetTrue)
        .help("Reads the configuration and says what is passed over")
}

/// The program's simple command.
fn command<'a>(alloc: Global) -> Result<Command<'a>, AllocError>
    ensures { IfOk result (λ c. app_of c ≡ proxy_app) }
{
    let command = Command::new(alloc, "hx_proxy").no_binary_name(true);
    command
        .arg(config_arg(alloc))?
        .arg(threads_arg(alloc))?
        .arg(check_arg(alloc))
}

fn is_true(text: &str) -> bool
    ensures { IsTrue result ↔ (text.now ≡ codes "true") }
{
    text == "true"
}

/// Whether the flag was used.
fn is_check(matches: &ArgMatches<'_>) -> bool
    ensures { IsTrue result ↔ (first_value (found_of matches.now) (codes "check") ≡ Some (codes "true")) }
{
    match matches.get_str("check") {
        Some(text) => is_true(text),
        None => false,
    }
}

/// The text for the user.
fn refuse(alloc: Global, error: &Error) -> Refusal
    ensures { RefusesBy (kind_of error.now) result }
{
    if error.kind() == ErrorKind::OutOfMemory {
        return Refusal::NoMemory;
    }
    match format!(in alloc; "{error}") {
        Ok(text) => Refusal::Words(text.into_bytes()),
        Err(_) => Refusal::NoMemory,
    }
}

/// What the words ask for, without the program's name.
///
/// # Errors
/// `Words` where they aren't those of the command, else for want of memory.
pub fn read_options<'a>(alloc: Global, words: &'a [String]) -> Result<Options<'a>, Refusal>
    ensures taken { IfOk result (IsTaken (words_of words.entry.now)) }
    ensures refused { IfErr result (IsRefusedFor (words_of words.entry.now)) }
{
    let Ok(command) = command(alloc) else {
        return Err(Refusal::NoMemory);
    };
    let matches = match command.try_get_matches_from(words) {
        Ok(matches) => matches,
        Err(error) => return Err(refuse(alloc, &error)),
    };
    // The command requires it.
    let Some(config) = matches.get_str("config") else {
        return Err(Refusal::NoMemory);
    };
    Ok(Options {
        config,
        threads: matches.get_one::<u8>("threads"),
        check: is_check(&matches),
    })
}
