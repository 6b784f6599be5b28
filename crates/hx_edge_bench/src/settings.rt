//! What the words of the program say.

/// What it does.
#[derive(Clone, Copy, Debug, PartialEq, Eq)]
pub enum Role {
    /// It passes the exchanges of its clients to a server.
    Pass,
    /// It answers each request itself.
    Origin,
    /// It asks.
    Load,
}

#[derive(Clone, Copy, Debug, PartialEq, Eq)]
pub struct Settings {
    pub role: Role,
    /// Where it listens, and whom a load asks.
    pub port: u16,
    /// Where its server listens.
    pub server: u16,
    pub seconds: u64,
    /// Bytes of a request.
    pub request: usize,
    /// Bytes of an answer's body.
    pub body: usize,
    /// How many clients ask without a rest, and how many ask once and are kept.
    pub clients: usize,
    pub idle: usize,
}

/// The longest body.
const MOST_BODY: u64 = 100_000_000;

/// The most clients of each kind.
const MOST_CLIENTS: u64 = 4000;

fn role_of(word: &str) -> Option<Role> {
    match word {
        "pass" => Some(Role::Pass),
        "origin" => Some(Role::Origin),
        "load" => Some(Role::Load),
        _ => None,
    }
}

/// The number that the word says, or another where there is no such word.
fn number(words: &[String], at: usize, otherwise: u64) -> Option<u64> {
    match words.get(at) {
        Some(word) => word.parse::<u64>().ok(),
        None => Some(otherwise),
    }
}

fn port(words: &[String], at: usize) -> Option<u16> {
    match number(words, at, 1)? {
        n if n >= 1 && n <= 65_535 => Some(n as u16),
        _ => None,
    }
}

/// None where a word is out of form.
pub fn settings_of(words: &[String]) -> Option<Settings> {
    Some(Settings {
        role: role_of(words.first()?.as_str())?,
        port: port(words, 1)?,
        server: port(words, 2)?,
        seconds: number(words, 3, 10)?.min(1_000_000),
        request: number(words, 4, 28)?.min(16_000) as usize,
        body: number(words, 5, 2)?.min(MOST_BODY) as usize,
        clients: number(words, 6, 16)?.min(MOST_CLIENTS) as usize,
        idle: number(words, 7, 0)?.min(MOST_CLIENTS) as usize,
    })
}
