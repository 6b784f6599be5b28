//! Addresses and names.
ghost use Rattle.std.specs.Prelude.{◌≡◌, ◌≤◌, ◌<◌, take, drop, Ok, Err, bytes_eq};
ghost use Rattle.std.specs.List.{list_all};
ghost use Rattle.hx_base.specs.Names as names;
ghost use Rattle.hx_config_parts.specs.Faults.{Gives};
ghost use Rattle.hx_config_parts.specs.Numbers.{is_number, value};
ghost use Rattle.hx_config_parts.specs.Addresses as spelled;

use crate::fault::{Refusal, Rule};
use crate::numbers::number;
use crate::words::same;
use hx_base::{Address, Host};

// What stands before the first such byte, and behind it.
fn cut(word: &[u8], mark: u8) -> Result<(&[u8], &[u8]), Refusal>
    ensures { Gives (λ x. (x.0.now, x.1.now)) result (spelled.cut_at mark word.now) }
{
    for (i, b) in word.iter().enumerate() {
        if *b == mark {
            return Ok((&word[..i], &word[i + 1..]));
        }
    }
    Err(Refusal::Fault(Rule::BadAddress))
}

/// Whether no zero stands before other digits.
pub fn is_plain_word(word: &[u8]) -> bool
    ensures { result ≡ spelled.is_plain word.now }
{
    match word {
        [] => true,
        [_] => true,
        [b, ..] => *b != b'0',
    }
}

fn part_of_host(word: &[u8]) -> Result<u8, Refusal>
    ensures { Gives (λ n. n) result (spelled.octet word.now) }
{
    if !is_plain_word(word) {
        return Err(Refusal::Fault(Rule::BadAddress));
    }
    let n = number(Rule::BadAddress, word, 0, 255)?;
    Ok(n as u8)
}

fn dotted_host(word: &[u8]) -> Result<Host, Refusal>
    ensures { Gives (λ h. h) result (spelled.dotted word.now) }
{
    let (first, rest) = cut(word, b'.')?;
    let (second, rest) = cut(rest, b'.')?;
    let (third, fourth) = cut(rest, b'.')?;
    let first = part_of_host(first)?;
    let second = part_of_host(second)?;
    let third = part_of_host(third)?;
    let fourth = part_of_host(fourth)?;
    Ok(Host::V4(first, second, third, fourth))
}

fn host_to_connect(word: &[u8]) -> Result<Host, Refusal>
    ensures { Gives (λ h. h) result (spelled.server_host word.now) }
{
    if same(word, b"localhost") {
        Ok(Host::Local)
    } else {
        dotted_host(word)
    }
}

fn host_to_bind(word: &[u8]) -> Result<Host, Refusal>
    ensures { Gives (λ h. h) result (spelled.bind_host word.now) }
{
    if same(word, b"") || same(word, b"*") {
        Ok(Host::Any)
    } else {
        host_to_connect(word)
    }
}

fn port(word: &[u8]) -> Result<u16, Refusal>
    ensures { Gives (λ n. n) result (spelled.port_of word.now) }
{
    let n = number(Rule::BadAddress, word, 1, 65535)?;
    Ok(n as u16)
}

/// An address of a `server` line.
#[tactic(auto, unfolding(crate::specs::Addresses::server_address))]
pub fn address_to_connect(word: &[u8]) -> Result<Address, Refusal>
    ensures { Gives (λ a. a) result (spelled.server_address word.now) }
{
    let (host, rest) = cut(word, b':')?;
    let host = host_to_connect(host)?;
    let port = port(rest)?;
    Ok(Address { host, port })
}

/// An address of a `bind` line.
#[tactic(auto, unfolding(crate::specs::Addresses::bind_address))]
pub fn address_to_bind(word: &[u8]) -> Result<Address, Refusal>
    ensures { Gives (λ a. a) result (spelled.bind_address word.now) }
{
    let (host, rest) = cut(word, b':')?;
    let host = host_to_bind(host)?;
    let port = port(rest)?;
    Ok(Address { host, port })
}

fn is_name_letter(b: u8) -> bool
    ensures { result ≡ names.is_name_byte b }
{
    b.is_ascii_alphanumeric() || b == b'-' || b == b'_' || b == b'.' || b == b':'
}

fn are_name_letters(word: &[u8]) -> bool
    ensures { result ≡ list_all names.is_name_byte word.now }
{
    word.iter().all(|b| is_name_letter(*b))
}

fn is_name(word: &[u8]) -> bool
    ensures { result ≡ names.is_name word.now }
{
    !word.is_empty() && are_name_letters(word)
}

/// A name: one or more letters, digits, `-`, `_`, `.` and `:`.
pub fn name(word: &[u8]) -> Result<&[u8], Refusal>
    ensures { Gives (λ n. n.now) result (spelled.name_of word.now) }
{
    if is_name(word) {
        Ok(word)
    } else {
        Err(Refusal::Fault(Rule::UnknownWord))
    }
}
