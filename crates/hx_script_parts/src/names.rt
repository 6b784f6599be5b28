//! The frontends, the servers and the workers that a script names.
ghost use Rattle.std.specs.Prelude.{◌≡◌, ◌<◌, IfSome, length};
ghost use Rattle.hx_config.specs.Views.{meaning};
ghost use Rattle.hx_script_parts.specs.Faults.{Gives};
ghost use Rattle.hx_script_parts.specs.Names as named;

use crate::fault::{Refusal, Rule};
use crate::numbers::GREATEST;
use crate::words::Words;
use hx_base::{ServerNo, ThreadNo};
use hx_config::{Back, Config, Front, Server};
use hx_config_parts::same;

fn front_named(name: &[u8], fronts: &[Front]) -> Option<usize>
    ensures place { result ≡ named.front_from 0 name.now fronts.now }
    ensures within { IfSome result (λ i. i < length fronts.now) }
{
    for (i, f) in fronts.iter().enumerate() {
        if same(f.name.as_slice(), name) {
            return Some(i);
        }
    }
    None
}

// Whether the word is the name of the backend, a stroke and the name of the server.
fn is_named(word: &[u8], back: &[u8], server: &[u8]) -> bool
    ensures { result ≡ named.is_named word.now back.now server.now }
{
    let n = back.len();
    if word.len() <= n {
        return false;
    }
    if word[n] != b'/' {
        return false;
    }
    if !same(&word[..n], back) {
        return false;
    }
    same(&word[n + 1..], server)
}

fn server_in(word: &[u8], back: &[u8], servers: &[Server]) -> Option<ServerNo>
    ensures { result ≡ named.server_in word.now back.now servers.now }
{
    for s in servers {
        if is_named(word, back, s.name.as_slice()) {
            return Some(s.no);
        }
    }
    None
}

fn server_among(word: &[u8], backs: &[Back]) -> Option<ServerNo>
    ensures { result ≡ named.server_among word.now backs.now }
{
    for b in backs {
        if let Some(no) = server_in(word, b.name.as_slice(), b.servers.as_slice()) {
            return Some(no);
        }
    }
    None
}

fn worker_below(threads: u8, n: u64) -> Result<ThreadNo, Refusal>
    ensures { Gives (λ t. t) result (named.worker_below threads n) }
{
    if n < threads as u64 {
        Ok(ThreadNo(n as u8))
    } else {
        Err(Refusal::Fault(Rule::BadWorker))
    }
}

impl<'a> Words<'a> {
    /// The next word, which must name a frontend: its place.
    pub fn front(&mut self, config: &Config) -> Result<u16, Refusal>
        ensures { Gives (λ i. (i, self.new)) result (named.front_at (meaning config.now) self.old) }
    {
        let word = self.word()?;
        let Some(place) = front_named(word, config.fronts.as_slice()) else {
            return Err(Refusal::Fault(Rule::NoSuchFrontend));
        };
        Ok(place as u16)
    }

    /// The next word, which must name a server.
    pub fn server(&mut self, config: &Config) -> Result<ServerNo, Refusal>
        ensures { Gives (λ s. (s, self.new)) result (named.server_at (meaning config.now) self.old) }
    {
        let word = self.word()?;
        match server_among(word, config.backs.as_slice()) {
            None => Err(Refusal::Fault(Rule::NoSuchServer)),
            Some(server) => Ok(server),
        }
    }

    /// The next word, which must be the number of a worker.
    pub fn worker(&mut self, config: &Config) -> Result<ThreadNo, Refusal>
        ensures { Gives (λ t. (t, self.new)) result (named.worker_at (meaning config.now) self.old) }
    {
        let n = self.number(0, GREATEST)?;
        worker_below(config.threads, n)
    }
}
