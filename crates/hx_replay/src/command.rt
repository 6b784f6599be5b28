//! The words of the command line.
ghost use Rattle.std.specs.Prelude.{◌≡◌, ℕ, ◌↔◌, ◌<◌, ◌≤◌, ◌^◌, IsTrue, IfSome, IfNone, string_bytes, codes, ◌∷◌, [], decimal};
ghost use Rattle.hx_replay.specs.Commands.{words_of, IsNumberIn, IsDrill, Means, NoCommand};

use itoa::Buffer;

/// What is asked for.
#[derive(Clone, Copy, Debug, PartialEq, Eq)]
pub enum Command {
    Replay,
    Check,
    Drill,
}

fn is_same(a: &str, b: &str) -> bool
    ensures { IsTrue result ↔ (a.now ≡ b.now) }
{
    a == b
}

fn is_between(n: u64, low: u64, high: u64) -> bool
    ensures { IsTrue result ↔ ((low ≤ n) × (n ≤ high)) }
{
    low <= n && n <= high
}

/// The number that the text is in decimal digits, without a leading zero.
fn number_of(text: &str) -> Option<u64>
    ensures some { IfSome result (λ n. (n < 2 ^ 64) × (text.now ≡ decimal n)) }
    ensures none { IfNone result ((n : ℕ) → n < 2 ^ 64 → text.now ≡ decimal n → ⊥) }
{
    match text.parse::<u64>() {
        Ok(n) => {
            let mut buffer = Buffer::new();
            if is_same(buffer.format(n), text) {
                Some(n)
            } else {
                None
            }
        }
        Err(_) => None,
    }
}

fn is_number_in(text: &str, low: u64, high: u64) -> bool
    ensures { IsTrue result ↔ IsNumberIn low high text.now }
{
    match number_of(text) {
        Some(n) => is_between(n, low, high),
        None => false,
    }
}

fn is_word(word: &String, text: &str) -> bool
    ensures { IsTrue result ↔ (string_bytes word.now ≡ text.now) }
{
    word.as_str() == text
}

/// The command of one word.
fn short_command(word: &String) -> Option<Command>
    ensures some { IfSome result (Means (string_bytes word.now ∷ [])) }
    ensures none { IfNone result (NoCommand (string_bytes word.now ∷ [])) }
{
    if is_word(word, "replay") {
        Some(Command::Replay)
    } else if is_word(word, "check") {
        Some(Command::Check)
    } else {
        None
    }
}

fn is_drill(word: &String, start: &String, threads: &String, sessions: &String) -> bool
    ensures { IsTrue result ↔ IsDrill (string_bytes word.now ∷ string_bytes start.now ∷ string_bytes threads.now
        ∷ string_bytes sessions.now ∷ []) }
{
    is_word(word, "drill")
        && is_number_in(start.as_str(), 0, 1_000_000)
        && is_number_in(threads.as_str(), 1, 16)
        && is_number_in(sessions.as_str(), 1, 100_000)
}

/// The command, if the words are one.
pub fn command_of(words: &[String]) -> Option<Command>
    ensures some { IfSome result (Means (words_of words.now)) }
    ensures none { IfNone result (NoCommand (words_of words.now)) }
{
    if words.len() == 1 {
        short_command(&words[0])
    } else if words.len() == 4 {
        if is_drill(&words[0], &words[1], &words[2], &words[3]) {
            Some(Command::Drill)
        } else {
            None
        }
    } else {
        None
    }
}
