//! The words of a line that have parts.
ghost use Rattle.std.specs.Prelude.{◌≡◌, ◌<◌, IfSome, length, not};
ghost use Rattle.hx_base.specs.Names.{is_name};
ghost use Rattle.hx_transcripts_parts.specs.Faults.{Gives, unless, or_broken};
ghost use Rattle.hx_transcripts_parts.specs.Lexical.{read_word};
ghost use Rattle.hx_transcripts_parts.specs.Pieces as pieces;
ghost use Rattle.hx_transcripts_parts.specs.declared.fault.Rule.TheVariants.{BadLine};

use crate::fault::{Refusal, Rule};
use crate::numbers::{cut, number_of};
use crate::words::Words;
use hx_base::{ConnId, PlaceNo, ServerNo, SessionNo, Span, ThreadNo};
use hx_config_parts::{name, same};
use hx_script::ServerPart;

fn pair_of(word: &[u8], mark: u8, most: u64, most_behind: u64) -> Result<(u64, u64), Refusal>
    ensures { Gives (λ x. x) result (pieces.pair_in mark most most_behind word.now) }
{
    let Some((before, behind)) = cut(word, mark) else {
        return Err(Refusal::Fault(Rule::BadLine));
    };
    let a = number_of(before, most)?;
    let b = number_of(behind, most_behind)?;
    Ok((a, b))
}

fn who_of(word: &[u8]) -> Result<(ThreadNo, SessionNo), Refusal>
    ensures { Gives (λ x. x) result (pieces.who_in word.now) }
{
    let (t, n) = pair_of(word, b'.', u8::MAX as u64, u32::MAX as u64)?;
    Ok((ThreadNo(t as u8), SessionNo(n as u32)))
}

fn place_of(word: &[u8]) -> Result<PlaceNo, Refusal>
    ensures { Gives (λ x. x) result (pieces.place_in word.now) }
{
    let (row, place) = pair_of(word, b':', u8::MAX as u64, u8::MAX as u64)?;
    Ok(PlaceNo {
        row: row as u8,
        place: place as u8,
    })
}

fn span_of(word: &[u8]) -> Result<Span, Refusal>
    ensures { Gives (λ x. x) result (pieces.span_in word.now) }
{
    let (from, to) = pair_of(word, b'-', u64::MAX, u64::MAX)?;
    Ok(Span { from, to })
}

fn must_be_name(word: &[u8]) -> Result<(), Refusal>
    ensures { Gives (λ _. tt) result (unless (not (is_name word.now)) BadLine) }
{
    match name(word) {
        Ok(_) => Ok(()),
        Err(hx_config_parts::Refusal::Memory) => Err(Refusal::Memory),
        Err(hx_config_parts::Refusal::Fault(_)) => Err(Refusal::Fault(Rule::BadLine)),
    }
}

fn names_of(word: &[u8]) -> Result<(&[u8], &[u8]), Refusal>
    ensures { Gives (λ x. (x.0.now, x.1.now)) result (pieces.name_in word.now) }
{
    let Some((back, server)) = cut(word, b'/') else {
        return Err(Refusal::Fault(Rule::BadLine));
    };
    must_be_name(back)?;
    must_be_name(server)?;
    Ok((back, server))
}

fn has_names(part: &ServerPart, back: &[u8], server: &[u8]) -> bool
    ensures { result ≡ pieces.has_names back.now server.now part.now }
{
    same(part.back.as_slice(), back) && same(part.server.as_slice(), server)
}

/// The place of the server of these names.
pub fn server_named(back: &[u8], server: &[u8], servers: &[ServerPart]) -> Option<usize>
    ensures place { result ≡ pieces.server_from 0 back.now server.now servers.now }
    ensures within { IfSome result (λ i. i < length servers.now) }
{
    for (i, part) in servers.iter().enumerate() {
        if has_names(part, back, server) {
            return Some(i);
        }
    }
    None
}

fn numbered(i: usize) -> Result<ServerNo, Refusal>
    ensures { Gives (λ n. n) result (pieces.numbered i) }
{
    if i <= u16::MAX as usize {
        Ok(ServerNo(i as u16))
    } else {
        Err(Refusal::Fault(Rule::NoSuchName))
    }
}

fn server_of(servers: &[ServerPart], word: &[u8]) -> Result<ServerNo, Refusal>
    ensures { Gives (λ n. n) result (pieces.server_in servers.now word.now) }
{
    let (back, server) = names_of(word)?;
    let Some(i) = server_named(back, server, servers) else {
        return Err(Refusal::Fault(Rule::NoSuchName));
    };
    numbered(i)
}

fn conn_of(servers: &[ServerPart], word: &[u8]) -> Result<(ServerNo, ConnId), Refusal>
    ensures { Gives (λ x. x) result (pieces.conn_in servers.now word.now) }
{
    let Some((before, behind)) = cut(word, b'#') else {
        return Err(Refusal::Fault(Rule::BadLine));
    };
    let server = server_of(servers, before)?;
    let id = number_of(behind, u64::MAX)?;
    Ok((server, ConnId(id)))
}

impl<'a> Words<'a> {
    /// The next word, which must be a session with its thread.
    pub fn who(&mut self) -> Result<(ThreadNo, SessionNo), Refusal>
        ensures { Gives (λ x. (x, self.new)) result (read_word pieces.who_in self.old) }
    {
        let word = self.word()?;
        who_of(word)
    }

    /// The next word, which must be a place with its row.
    pub fn place(&mut self) -> Result<PlaceNo, Refusal>
        ensures { Gives (λ x. (x, self.new)) result (read_word pieces.place_in self.old) }
    {
        let word = self.word()?;
        place_of(word)
    }

    /// The next word, which must be a range.
    pub fn span(&mut self) -> Result<Span, Refusal>
        ensures { Gives (λ x. (x, self.new)) result (read_word pieces.span_in self.old) }
    {
        let word = self.word()?;
        span_of(word)
    }

    /// The next two words, which must be this label and a range.
    pub fn range(&mut self, label: &[u8]) -> Result<Span, Refusal>
        ensures { Gives (λ x. (x, self.new)) result (pieces.range_at label.now self.old) }
    {
        self.the(label)?;
        self.span()
    }

    /// The next two words, which must be this label and a number.
    pub fn count(&mut self, label: &[u8]) -> Result<u64, Refusal>
        ensures { Gives (λ x. (x, self.new)) result (pieces.count_at label.now self.old) }
    {
        self.the(label)?;
        self.number(u64::MAX)
    }

    /// The next word, which must be a backend and a server.
    pub fn names(&mut self) -> Result<(&'a [u8], &'a [u8]), Refusal>
        ensures { Gives (λ x. ((x.0.now, x.1.now), self.new)) result (read_word pieces.name_in self.old) }
    {
        let word = self.word()?;
        names_of(word)
    }

    /// The next word, which must be a connection of one of these servers.
    pub fn conn(&mut self, servers: &[ServerPart]) -> Result<(ServerNo, ConnId), Refusal>
        ensures { Gives (λ x. (x, self.new)) result (read_word (pieces.conn_in servers.now) self.old) }
    {
        let word = self.word()?;
        conn_of(servers, word)
    }
}
