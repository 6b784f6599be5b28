//! The words of a line.
ghost use Rattle.std.specs.Prelude.{◌≡◌, ◌∷◌, [], MatchOption, IsTrue, ◌↔◌, bytes_eq, false, take, drop};
ghost use Rattle.std.specs.List.{prefix_len};
ghost use Rattle.hx_config_parts.specs.Faults.{Gives};
ghost use Rattle.hx_config_parts.specs.Lexical.{is_blank, is_inside, is_ascii, begins_blank, ascii_word, no_words, words_of, word_at, at_end};

use crate::fault::{Refusal, Rule};
use std::marker::Model;

/// The words of a line that were not read yet.
#[derive(Drop)]
pub struct Words<'a> {
    rest: &'a [u8],
}

impl<'a> Model for Words<'a> {
    ghost use Rattle.std.specs.Prelude.{List, ℕ};
    ghost use Rattle.hx_config_parts.specs.Lexical.{words_of};

    ghost Value = { List (List ℕ) };

    ghost view = { λ w. words_of w.rest.now };
}

/// Whether the word is this text.
pub fn same(word: &[u8], text: &[u8]) -> bool
    ensures { result ≡ bytes_eq word.now text.now }
{
    word == text
}

fn is_ascii_word(word: &[u8]) -> bool
    ensures { result ≡ is_ascii word.now }
{
    word.iter().all(|b| 33 <= *b && *b <= 126)
}

fn is_inside_word(b: u8) -> bool
    ensures { result ≡ is_inside b }
{
    b != b' ' && b != b'\t' && b != b'#'
}

fn is_blank_byte(b: u8) -> bool
    ensures { result ≡ is_blank b }
{
    b == b' ' || b == b'\t'
}

// How many bytes of the rest belong to its first word.
fn word_len(rest: &[u8]) -> usize
    ensures { result ≡ prefix_len is_inside rest.now }
{
    for (i, b) in rest.iter().enumerate() {
        if !is_inside_word(*b) {
            return i;
        }
    }
    rest.len()
}

// The rest without the blanks before its first word.
fn skip_blanks(rest: &[u8]) -> &[u8]
    ensures words { words_of result.now ≡ words_of rest.now }
    ensures skipped { begins_blank result.now ≡ false }
{
    for (i, b) in rest.iter().enumerate() {
        if !is_blank_byte(*b) {
            return &rest[i..];
        }
    }
    &[]
}

// The first word of the rest, and what stands behind it.
fn split_word(rest: &[u8]) -> Option<(&[u8], &[u8])>
    ensures { MatchOption result (words_of rest.now ≡ [])
        (λ x. words_of rest.now ≡ x.0.now ∷ words_of x.1.now) }
{
    let rest = skip_blanks(rest);
    let n = word_len(rest);
    if n == 0 {
        return None;
    }
    Some(rest.split_at(n))
}

fn checked(word: &[u8]) -> Result<&[u8], Refusal>
    ensures { Gives (λ w. w.now) result (ascii_word word.now) }
{
    if is_ascii_word(word) {
        Ok(word)
    } else {
        Err(Refusal::Fault(Rule::NotAscii))
    }
}

impl<'a> Words<'a> {
    pub fn of(line: &'a [u8]) -> Words<'a>
        ensures { result ≡ words_of line.now }
    {
        Words { rest: line }
    }

    /// Whether no word is left.
    pub fn is_empty(&self) -> bool
        ensures empty { IsTrue result ↔ (self.now ≡ []) }
        ensures tested { result ≡ no_words self.now }
    {
        split_word(self.rest).is_none()
    }

    /// The next word, of any bytes.
    fn next(&mut self) -> Option<&'a [u8]>
        ensures { MatchOption result (self.old ≡ []) (λ w. self.old ≡ w.now ∷ self.new) }
    {
        let (word, rest) = split_word(self.rest)?;
        self.rest = rest;
        Some(word)
    }

    /// The next word, which must stand there.
    pub fn word(&mut self) -> Result<&'a [u8], Refusal>
        ensures { Gives (λ w. (w.now, self.new)) result (word_at self.old) }
    {
        match self.next() {
            None => Err(Refusal::Fault(Rule::MissingValue)),
            Some(word) => checked(word),
        }
    }

    /// No word may be left.
    pub fn end(&mut self) -> Result<(), Refusal>
        ensures { Gives (λ _. tt) result (at_end self.old) }
    {
        match self.next() {
            None => Ok(()),
            Some(word) => {
                checked(word)?;
                Err(Refusal::Fault(Rule::UnknownWord))
            }
        }
    }
}
