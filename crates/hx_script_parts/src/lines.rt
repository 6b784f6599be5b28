//! The lines of a text.
ghost use Rattle.std.specs.Prelude.{◌≡◌, ◌≤◌, ◌∷◌, [], length, MatchOption, IfSome, ◌+◌};
ghost use Rattle.std.specs.Option.{option_map};
ghost use Rattle.hx_script_parts.specs.Lexical.{lines_of, first_line, behind};

use hx_config_parts::line_len;
use std::marker::Model;

/// The lines of a text that were not read yet.
#[derive(Drop)]
pub struct Lines<'a> {
    rest: &'a [u8],
}

impl<'a> Model for Lines<'a> {
    ghost use Rattle.std.specs.Prelude.{List, ℕ};
    ghost use Rattle.hx_script_parts.specs.Lexical.{lines_of};

    ghost Value = { List (List ℕ) };

    ghost view = { λ w. lines_of w.rest.now };
}

/// The first line of the rest, and what stands behind it.
pub fn split_line(rest: &[u8]) -> Option<(&[u8], &[u8])>
    ensures { option_map (λ x. (x.0.now, x.1.now)) result ≡ first_line rest.now }
{
    if rest.is_empty() {
        return None;
    }
    let n = line_len(rest);
    if n == rest.len() {
        return Some((rest, &[]));
    }
    Some((&rest[..n], &rest[n + 1..]))
}

// The same of all lines of the rest.
fn next_line(rest: &[u8]) -> Option<(&[u8], &[u8])>
    ensures { MatchOption result (lines_of rest.now ≡ [])
        (λ x. lines_of rest.now ≡ x.0.now ∷ lines_of x.1.now) }
{
    split_line(rest)
}

/// What stands behind so many lines.
pub fn skip_lines(count: u64, text: &[u8]) -> Option<&[u8]>
    ensures behind { option_map (λ x. x.now) result ≡ behind count text.now }
    ensures fewer { IfSome result (λ x. count + length x.now ≤ length text.now) }
{
    let mut rest = text;
    for _ in 0..count {
        let Some((_, after)) = split_line(rest) else {
            return None;
        };
        rest = after;
    }
    Some(rest)
}

impl<'a> Lines<'a> {
    pub fn of(text: &'a [u8]) -> Lines<'a>
        ensures { result ≡ lines_of text.now }
    {
        Lines { rest: text }
    }

    /// The next line.
    pub fn next(&mut self) -> Option<&'a [u8]>
        ensures { MatchOption result (self.old ≡ []) (λ w. self.old ≡ w.now ∷ self.new) }
    {
        let (line, rest) = next_line(self.rest)?;
        self.rest = rest;
        Some(line)
    }
}
