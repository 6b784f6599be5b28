//! Numbers, and what a mark cuts in two.
ghost use Rattle.std.specs.Prelude.{◌≡◌, ◌≤◌, true, min, ◌^◌, IfOk};
ghost use Rattle.std.specs.List.{list_all};
ghost use Rattle.std.specs.Option.{option_map};
ghost use Rattle.hx_config_parts.specs.Numbers.{is_digit, value};
ghost use Rattle.hx_script_parts.specs.Numbers.{is_decimal};
ghost use Rattle.hx_transcripts_parts.specs.Faults.{Gives};
ghost use Rattle.hx_transcripts_parts.specs.Numbers.{number_in, limit_in, cut_at};
ghost use Rattle.hx_transcripts_parts.specs.Lexical.{read_word};

use crate::fault::{Refusal, Rule};
use crate::words::Words;
use hx_config_parts::{is_number_word, is_plain_word, same};

/// Past the greatest number.
const PAST: u128 = 1 << 64;

fn is_decimal_word(word: &[u8]) -> bool
    ensures { result ≡ is_decimal word.now }
{
    is_number_word(word) && is_plain_word(word)
}

// The number that the digits spell, or the one past the greatest where it is greater.
fn value_of(word: &[u8]) -> u128
    requires { list_all is_digit word.now ≡ true }
    ensures { result ≡ min (value word.now) (2 ^ 64) }
{
    let mut n: u128 = 0;
    for b in word {
        n = (10 * n + (*b as u128 - 48)).min(PAST);
    }
    n
}

/// The number that the word spells, which is at most `most`.
pub fn number_of(word: &[u8], most: u64) -> Result<u64, Refusal>
    ensures reads { Gives (λ n. n) result (number_in most word.now) }
    ensures within { IfOk result (λ n. n ≤ most) }
{
    if !is_decimal_word(word) {
        return Err(Refusal::Fault(Rule::BadNumber));
    }
    let n = value_of(word);
    if n > most as u128 {
        return Err(Refusal::Fault(Rule::BadNumber));
    }
    Ok(n as u64)
}

fn limit_of(word: &[u8]) -> Result<Option<u32>, Refusal>
    ensures { Gives (λ n. n) result (limit_in word.now) }
{
    if same(word, b"-1") {
        return Ok(None);
    }
    let n = number_of(word, u32::MAX as u64)?;
    Ok(Some(n as u32))
}

/// What stands before the first such byte, and behind it.
pub fn cut(word: &[u8], mark: u8) -> Option<(&[u8], &[u8])>
    ensures { option_map (λ x. (x.0.now, x.1.now)) result ≡ cut_at mark word.now }
{
    for (i, b) in word.iter().enumerate() {
        if *b == mark {
            return Some((&word[..i], &word[i + 1..]));
        }
    }
    None
}

impl<'a> Words<'a> {
    /// The next word, which must be a number of at most `most`.
    pub fn number(&mut self, most: u64) -> Result<u64, Refusal>
        ensures reads { Gives (λ n. (n, self.new)) result (read_word (number_in most) self.old) }
        ensures within { IfOk result (λ n. n ≤ most) }
    {
        let word = self.word()?;
        number_of(word, most)
    }

    /// The next word, which must be a limit, or -1 for none.
    pub fn limit(&mut self) -> Result<Option<u32>, Refusal>
        ensures { Gives (λ n. (n, self.new)) result (read_word limit_in self.old) }
    {
        let word = self.word()?;
        limit_of(word)
    }
}
