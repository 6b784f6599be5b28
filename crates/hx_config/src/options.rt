//! The options of `server` and `default-server` lines.
ghost use Rattle.std.specs.Prelude.{◌≡◌};
ghost use Rattle.hx_config_parts.specs.Faults.{Gives};
ghost use Rattle.hx_config_parts.specs.Tables.{found};
ghost use Rattle.hx_config.specs.Options as said;

use hx_base::PoolRules;
use hx_config_parts::{Refusal, Rule, Words, is_number_word, number, same, time};

/// An option of a server.
#[derive(Clone, Copy, PartialEq, Eq, Debug)]
pub enum ServerOption {
    MaxConn,
    LowConn,
    PurgeDelay,
    /// Passed over, without a value.
    Check,
    /// Passed over, with a time.
    Inter,
    /// Passed over, with a number.
    Count,
}

/// What the options of a line choose.
#[derive(Clone, Copy, PartialEq, Eq, Debug)]
pub struct Chosen {
    pub rules: PoolRules,
    /// An option was passed over.
    pub passed: bool,
}

fn option_word(word: &[u8]) -> Option<ServerOption>
    ensures { result ≡ found said.option_words word.now }
{
    if same(word, b"pool-max-conn") {
        Some(ServerOption::MaxConn)
    } else if same(word, b"pool-low-conn") {
        Some(ServerOption::LowConn)
    } else if same(word, b"pool-purge-delay") {
        Some(ServerOption::PurgeDelay)
    } else if same(word, b"check") {
        Some(ServerOption::Check)
    } else if same(word, b"inter") {
        Some(ServerOption::Inter)
    } else if same(word, b"rise") {
        Some(ServerOption::Count)
    } else if same(word, b"fall") {
        Some(ServerOption::Count)
    } else if same(word, b"maxconn") {
        Some(ServerOption::Count)
    } else {
        None
    }
}

fn next_option(words: &mut Words<'_>) -> Result<ServerOption, Refusal>
    ensures { Gives (λ o. (o, words.new)) result (said.option_at words.old) }
{
    let word = words.word()?;
    match option_word(word) {
        None => Err(Refusal::Fault(Rule::UnknownWord)),
        Some(option) => Ok(option),
    }
}

fn max_number(word: &[u8]) -> Result<Option<u32>, Refusal>
    ensures { Gives (λ m. m) result (said.max_of word.now) }
{
    if same(word, b"-1") {
        return Ok(None);
    }
    let max = number(Rule::BadNumber, word, 0, 1_000_000)?;
    Ok(Some(max))
}

fn some_count(word: &[u8]) -> Result<(), Refusal>
    ensures { Gives (λ _. tt) result (said.count_of word.now) }
{
    if is_number_word(word) {
        Ok(())
    } else {
        Err(Refusal::Fault(Rule::BadNumber))
    }
}

fn with_value(option: ServerOption, start: Chosen, word: &[u8]) -> Result<Chosen, Refusal>
    ensures { Gives (λ c. c) result (said.with_value option start word.now) }
{
    let mut chosen = start;
    match option {
        ServerOption::MaxConn => chosen.rules.max = max_number(word)?,
        ServerOption::LowConn => chosen.rules.low = number(Rule::BadNumber, word, 0, 1_000_000)?,
        ServerOption::PurgeDelay => chosen.rules.delay = time(word)?,
        ServerOption::Inter => {
            time(word)?;
            chosen.passed = true;
        }
        ServerOption::Count => {
            some_count(word)?;
            chosen.passed = true;
        }
        ServerOption::Check => chosen.passed = true,
    }
    Ok(chosen)
}

fn one_option(start: Chosen, words: &mut Words<'_>) -> Result<Chosen, Refusal>
    ensures { Gives (λ c. (c, words.new)) result (said.one_option start words.old) }
{
    let option = next_option(words)?;
    if let ServerOption::Check = option {
        let mut chosen = start;
        chosen.passed = true;
        return Ok(chosen);
    }
    let word = words.word()?;
    with_value(option, start, word)
}

/// What the options that are left choose, from left to right.
pub fn choose(start: Chosen, words: &mut Words<'_>) -> Result<Chosen, Refusal>
    ensures { Gives (λ c. c) result (said.chosen_by start words.old) }
{
    let mut chosen = start;
    while !words.is_empty() {
        chosen = one_option(chosen, words)?;
    }
    Ok(chosen)
}
