//! The words of a line.
ghost use Rattle.std.specs.Prelude.{◌≡◌, ◌≤◌, List, ℕ, length, Some, None};
ghost use Rattle.std.specs.Option.{option_map};
ghost use Rattle.std.specs.List.{prefix_len};
ghost use Rattle.hx_transcripts_parts.specs.Faults.{Gives, unless};
ghost use Rattle.hx_transcripts_parts.specs.Lexical.{is_inside, behind_word, word_at, text_at, at_end, is_word, read_word};

use crate::fault::{Refusal, Rule};
use crate::spelling::spelled_front;
use hx_base::{Bytes, Items};
use hx_config_parts::same;
use std::alloc::Global;
use std::marker::Model;

/// What is left of a line: nothing at its end, or all from the next word on.
#[derive(Drop)]
pub struct Words<'a> {
    rest: Option<&'a [u8]>,
}

impl<'a> Model for Words<'a> {
    ghost use Rattle.std.specs.Option.{option_map};
    ghost use Rattle.hx_transcripts_parts.specs.Lexical.{Rest};

    ghost Value = { Rest };

    ghost view = { λ w. option_map (λ s. s.now) w.rest };
}

/// The rule is broken, or nothing is wrong.
pub fn unless_broken(broken: bool, rule: Rule) -> Result<(), Refusal>
    ensures { Gives (λ _. tt) result (unless broken rule) }
{
    if broken {
        Err(Refusal::Fault(rule))
    } else {
        Ok(())
    }
}

// How many bytes of the rest belong to its first word.
fn word_len(rest: &[u8]) -> usize
    ensures len { result ≡ prefix_len is_inside rest.now }
    ensures within { result ≤ length rest.now }
{
    for (i, b) in rest.iter().enumerate() {
        if *b == b' ' {
            return i;
        }
    }
    rest.len()
}

// What stands behind the blank that parts a word from the next one.
fn skip_blank(rest: &[u8]) -> Option<&[u8]>
    ensures { option_map (λ s. s.now) result ≡ behind_word rest.now }
{
    match rest {
        [] => None,
        [_, after @ ..] => Some(after),
    }
}

fn is_the_word(expected: &[u8], word: &[u8]) -> Result<(), Refusal>
    ensures { Gives (λ _. tt) result (is_word expected.now word.now) }
{
    unless_broken(!same(word, expected), Rule::BadLine)
}

impl<'a> Words<'a> {
    /// All words of the line.
    pub fn of(line: &'a [u8]) -> Words<'a>
        ensures { result ≡ Some line.now }
    {
        Words { rest: Some(line) }
    }

    /// The next word, which must stand there.
    pub fn word(&mut self) -> Result<&'a [u8], Refusal>
        ensures { Gives (λ w. (w.now, self.new)) result (word_at self.old) }
    {
        let Some(rest) = self.rest else {
            return Err(Refusal::Fault(Rule::BadLine));
        };
        let n = word_len(rest);
        self.rest = skip_blank(&rest[n..]);
        Ok(&rest[..n])
    }

    /// The next word, which must be this one.
    pub fn the(&mut self, expected: &[u8]) -> Result<(), Refusal>
        ensures { Gives (λ _. (tt, self.new)) result (read_word (is_word expected.now) self.old) }
    {
        let word = self.word()?;
        is_the_word(expected, word)
    }

    /// The bytes of the byte text that must stand next, in its one spelling.
    pub fn text(&mut self, alloc: Global) -> Result<Bytes, Refusal>
        ensures { Gives (λ b. (b, self.new)) result (text_at self.old) }
    {
        let Some(rest) = self.rest else {
            return Err(Refusal::Fault(Rule::BadLine));
        };
        let (bytes, after) = spelled_front(alloc, rest)?;
        match after {
            [] => self.rest = None,
            [b' ', next @ ..] => self.rest = Some(next),
            _ => return Err(Refusal::Fault(Rule::BadText)),
        }
        Ok(Items::from_vec(bytes))
    }

    /// No word may be left.
    pub fn end(&mut self) -> Result<(), Refusal>
        ensures { Gives (λ _. tt) result (at_end self.old) }
    {
        match self.rest {
            None => Ok(()),
            Some(_) => Err(Refusal::Fault(Rule::BadLine)),
        }
    }
}
