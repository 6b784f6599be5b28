//! Numbers and times.
ghost use Rattle.std.specs.Prelude.{◌≡◌, ℕ, ◌<◌, ◌≤◌, min, true, ◌*◌, take, drop};
ghost use Rattle.std.specs.List.{list_all, prefix_len};
ghost use Rattle.hx_config_parts.specs.Faults.{Gives};
ghost use Rattle.hx_config_parts.specs.Numbers.{is_digit, is_number, value, bounded, millis, in_unit, time_of};

use crate::fault::{Refusal, Rule};
use crate::words::same;
use hx_base::Millis;

/// A greater number is as good as this one: it is past each limit.
pub const MOST: u64 = 1_000_000_000_000_000;

const LONGEST: u64 = 2_147_483_647;

fn is_digit_byte(b: u8) -> bool
    ensures { result ≡ is_digit b }
{
    48 <= b && b <= 57
}

/// Whether the word is one or more digits.
pub fn is_number_word(word: &[u8]) -> bool
    ensures { result ≡ is_number word.now }
{
    !word.is_empty() && are_digits(word)
}

fn are_digits(word: &[u8]) -> bool
    ensures { result ≡ list_all is_digit word.now }
{
    word.iter().all(|b| is_digit_byte(*b))
}

/// The number that the digits spell, or `MOST` where it is greater.
pub fn value_of(word: &[u8]) -> u64
    requires { list_all is_digit word.now ≡ true }
    ensures { result ≡ min (value word.now) MOST }
{
    let mut n: u64 = 0;
    for b in word {
        n = (10 * n + (*b as u64 - 48)).min(MOST);
    }
    n
}

/// A number from low to high. `rule` is what another word breaks.
pub fn number(rule: Rule, word: &[u8], low: u32, high: u32) -> Result<u32, Refusal>
    ensures { Gives (λ n. n) result (bounded rule low high word.now) }
{
    if !is_number_word(word) {
        return Err(Refusal::Fault(rule));
    }
    let n = value_of(word);
    if n < low as u64 || n > high as u64 {
        return Err(Refusal::Fault(rule));
    }
    Ok(n as u32)
}

fn at_most_longest(n: u64) -> Result<Millis, Refusal>
    ensures { Gives (λ t. t) result (millis n) }
{
    if n <= LONGEST {
        Ok(Millis(n))
    } else {
        Err(Refusal::Fault(Rule::BadTime))
    }
}

// So many of a unit of so many milliseconds.
fn times(n: u64, unit: u64) -> Result<Millis, Refusal>
    requires unit { (1 ≤ unit) × (unit ≤ 86400000) }
    ensures { Gives (λ t. t) result (millis (n * unit)) }
{
    if n > LONGEST {
        return Err(Refusal::Fault(Rule::BadTime));
    }
    at_most_longest(n * unit)
}

fn of_unit(n: u64, unit: &[u8]) -> Result<Millis, Refusal>
    requires { n ≤ MOST }
    ensures { Gives (λ t. t) result (in_unit n unit.now) }
{
    if same(unit, b"") || same(unit, b"ms") {
        at_most_longest(n)
    } else if same(unit, b"us") {
        at_most_longest(n.div_ceil(1000))
    } else if same(unit, b"s") {
        times(n, 1000)
    } else if same(unit, b"m") {
        times(n, 60_000)
    } else if same(unit, b"h") {
        times(n, 3_600_000)
    } else if same(unit, b"d") {
        times(n, 86_400_000)
    } else {
        Err(Refusal::Fault(Rule::BadTime))
    }
}

// How many digits stand at the front.
fn digit_len(word: &[u8]) -> usize
    ensures { result ≡ prefix_len is_digit word.now }
{
    for (i, b) in word.iter().enumerate() {
        if !is_digit_byte(*b) {
            return i;
        }
    }
    word.len()
}

/// A time: digits, and a unit.
pub fn time(word: &[u8]) -> Result<Millis, Refusal>
    ensures { Gives (λ t. t) result (time_of word.now) }
{
    let n = digit_len(word);
    if n == 0 {
        return Err(Refusal::Fault(Rule::BadTime));
    }
    of_unit(value_of(&word[..n]), &word[n..])
}
