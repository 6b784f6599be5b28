//! The lines of a text.
ghost use Rattle.std.specs.Prelude.{◌≡◌, ◌≤◌, ◌∷◌, [], length, MatchOption};
ghost use Rattle.std.specs.List.{prefix_len};
ghost use Rattle.hx_config_parts.specs.Lexical.{is_kept, without_return, lines_of};

use std::marker::Model;

/// The lines of a text that were not read yet.
#[derive(Drop)]
pub struct Lines<'a> {
    rest: &'a [u8],
}

impl<'a> Model for Lines<'a> {
    ghost use Rattle.std.specs.Prelude.{List, ℕ};
    ghost use Rattle.hx_config_parts.specs.Lexical.{lines_of};

    ghost Value = { List (List ℕ) };

    ghost view = { λ w. lines_of w.rest.now };
}

/// How many bytes stand before the first line feed.
pub fn line_len(rest: &[u8]) -> usize
    ensures len { result ≡ prefix_len is_kept rest.now }
    ensures within { result ≤ length rest.now }
{
    for (i, b) in rest.iter().enumerate() {
        if *b == b'\n' {
            return i;
        }
    }
    rest.len()
}

// The line without a carriage return at its end.
fn trimmed(line: &[u8]) -> &[u8]
    ensures { result.now ≡ without_return line.now }
{
    if line.is_empty() {
        return line;
    }
    let last = line.len() - 1;
    if line[last] == b'\r' {
        &line[..last]
    } else {
        line
    }
}

// The first line of the rest, and what stands behind it.
fn split_line(rest: &[u8]) -> Option<(&[u8], &[u8])>
    ensures { MatchOption result (lines_of rest.now ≡ [])
        (λ x. lines_of rest.now ≡ x.0.now ∷ lines_of x.1.now) }
{
    if rest.is_empty() {
        return None;
    }
    let n = line_len(rest);
    if n == rest.len() {
        return Some(rest.split_at(n));
    }
    let (_, after) = rest.split_at(n + 1);
    Some((trimmed(&rest[..n]), after))
}

impl<'a> Lines<'a> {
    pub fn of(text: &'a [u8]) -> Lines<'a>
        ensures { result ≡ lines_of text.now }
    {
        Lines { rest: text }
    }

    /// The next line.
    pub fn next(&mut self) -> Option<&'a [u8]>
        ensures { MatchOption result (self.old ≡ []) (λ w. self.old ≡ w.now ∷ self.new) }
    {
        let (line, rest) = split_line(self.rest)?;
        self.rest = rest;
        Some(line)
    }
}
