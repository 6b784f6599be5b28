//! Numbers and moments.
ghost use Rattle.std.specs.Prelude.{◌≤◌, ◌≡◌};
ghost use Rattle.hx_script_parts.specs.Faults.{Gives};
ghost use Rattle.hx_script_parts.specs.Numbers.{is_decimal, number_in, number_at, moment_at};

use crate::fault::{Refusal, Rule};
use crate::words::Words;
use hx_base::Millis;
use hx_config_parts::{is_number_word, is_plain_word, value_of};

/// The greatest number.
pub const GREATEST: u64 = 1_000_000_000_000;

const LONGEST: u64 = 2_147_483_647;

fn is_decimal_word(word: &[u8]) -> bool
    ensures { result ≡ is_decimal word.now }
{
    is_number_word(word) && is_plain_word(word)
}

fn number_of(word: &[u8], low: u64, high: u64) -> Result<u64, Refusal>
    requires { high ≤ GREATEST }
    ensures { Gives (λ n. n) result (number_in low high word.now) }
{
    if !is_decimal_word(word) {
        return Err(Refusal::Fault(Rule::BadNumber));
    }
    let n = value_of(word);
    if n < low || n > high {
        return Err(Refusal::Fault(Rule::BadNumber));
    }
    Ok(n)
}

impl<'a> Words<'a> {
    /// The next word, which must be a number from low to high.
    pub fn number(&mut self, low: u64, high: u64) -> Result<u64, Refusal>
        requires { high ≤ GREATEST }
        ensures { Gives (λ n. (n, self.new)) result (number_at low high self.old) }
    {
        let word = self.word()?;
        number_of(word, low, high)
    }

    /// The next word, which must be a moment.
    pub fn moment(&mut self) -> Result<Millis, Refusal>
        ensures { Gives (λ m. (m, self.new)) result (moment_at self.old) }
    {
        let n = self.number(0, LONGEST)?;
        Ok(Millis(n))
    }
}
