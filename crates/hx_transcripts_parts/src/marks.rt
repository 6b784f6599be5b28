//! The lines of servers and of marks.
ghost use Rattle.std.specs.Prelude.{◌≡◌};
ghost use Rattle.hx_transcripts_parts.specs.Faults.{Gives};
ghost use Rattle.hx_transcripts_parts.specs.Keywords as words;
ghost use Rattle.hx_transcripts_parts.specs.Lexical.{read_word};
ghost use Rattle.hx_transcripts_parts.specs.Marks as marks;

use crate::fault::{Refusal, Rule};
use crate::keywords::{MarkWord, is_draining, is_first, mode_of};
use crate::words::{Words, unless_broken};
use hx_base::{ConnId, Millis, Mode, PlaceNo, PoolRules, SessionNo, ThreadNo};
use hx_pool::Entry;

fn first_of(n: SessionNo, word: &[u8]) -> Result<bool, Refusal>
    ensures { Gives (λ x. x) result (marks.first_in n word.now) }
{
    let Some(first) = is_first(word) else {
        return Err(Refusal::Fault(Rule::BadLine));
    };
    unless_broken(first && n.0 == 0, Rule::BadLine)?;
    Ok(first)
}

impl<'a> Words<'a> {
    fn mode(&mut self) -> Result<Mode, Refusal>
        ensures { Gives (λ x. (x, self.new)) result (read_word (marks.one_of words.mode_words) self.old) }
    {
        let word = self.word()?;
        match mode_of(word) {
            None => Err(Refusal::Fault(Rule::BadLine)),
            Some(mode) => Ok(mode),
        }
    }

    fn draining(&mut self) -> Result<bool, Refusal>
        ensures { Gives (λ x. (x, self.new)) result (read_word (marks.one_of words.gate_words) self.old) }
    {
        let word = self.word()?;
        match is_draining(word) {
            None => Err(Refusal::Fault(Rule::BadLine)),
            Some(draining) => Ok(draining),
        }
    }

    fn first(&mut self, n: SessionNo) -> Result<bool, Refusal>
        ensures { Gives (λ x. (x, self.new)) result (read_word (marks.first_in n) self.old) }
    {
        let word = self.word()?;
        first_of(n, word)
    }

    fn who_conn(&mut self) -> Result<(ThreadNo, SessionNo, ConnId), Refusal>
        ensures { Gives (λ x. (x, self.new)) result (marks.who_conn_at self.old) }
    {
        let (t, n) = self.who()?;
        let id = self.number(u64::MAX)?;
        Ok((t, n, ConnId(id)))
    }

    fn rest(&mut self) -> Result<(PlaceNo, u16), Refusal>
        ensures { Gives (λ x. (x, self.new)) result (marks.rest_at self.old) }
    {
        let place = self.place()?;
        let uses = self.number(u16::MAX as u64)?;
        Ok((place, uses as u16))
    }

    /// What stands behind the name on a server's line.
    pub fn rules(&mut self) -> Result<PoolRules, Refusal>
        ensures { Gives (λ x. x) result (marks.rules_at self.old) }
    {
        let mode = self.mode()?;
        let max = self.limit()?;
        let low = self.number(u32::MAX as u64)?;
        let delay = self.number(u64::MAX)?;
        self.end()?;
        Ok(PoolRules {
            mode,
            max,
            low: low as u32,
            delay: Millis(delay),
        })
    }

    fn opened(&mut self) -> Result<Entry, Refusal>
        ensures { Gives (λ x. x) result (marks.open_at self.old) }
    {
        let (t, n, id) = self.who_conn()?;
        self.end()?;
        Ok(Entry::Open { t, n, id })
    }

    fn parked(&mut self) -> Result<Entry, Refusal>
        ensures { Gives (λ x. x) result (marks.park_at self.old) }
    {
        let (t, n, id) = self.who_conn()?;
        let (place, uses) = self.rest()?;
        self.end()?;
        Ok(Entry::Park {
            t,
            n,
            id,
            place,
            uses,
        })
    }

    fn taken(&mut self) -> Result<Entry, Refusal>
        ensures { Gives (λ x. x) result (marks.take_at self.old) }
    {
        let (t, n, id) = self.who_conn()?;
        let (place, uses) = self.rest()?;
        let first = self.first(n)?;
        self.end()?;
        Ok(Entry::Take {
            t,
            n,
            first,
            place,
            id,
            uses,
        })
    }

    fn closed(&mut self) -> Result<Entry, Refusal>
        ensures { Gives (λ x. x) result (marks.close_at self.old) }
    {
        let (t, n, id) = self.who_conn()?;
        self.end()?;
        Ok(Entry::Close { t, n, id })
    }

    fn gate(&mut self) -> Result<Entry, Refusal>
        ensures { Gives (λ x. x) result (marks.gate_at self.old) }
    {
        let t = self.number(u8::MAX as u64)?;
        let draining = self.draining()?;
        self.end()?;
        Ok(Entry::SetGate {
            t: ThreadNo(t as u8),
            draining,
        })
    }

    fn round(&mut self) -> Result<Entry, Refusal>
        ensures { Gives (λ x. x) result (marks.round_at self.old) }
    {
        let t = self.number(u8::MAX as u64)?;
        let k = self.number(u64::MAX)?;
        let old = self.number(u64::MAX)?;
        self.end()?;
        Ok(Entry::Round {
            t: ThreadNo(t as u8),
            k,
            old,
        })
    }

    /// What stands behind the first word of a mark's line.
    #[tactic(auto, unfolding(crate::specs::Marks::mark_at))]
    pub fn mark(&mut self, first: MarkWord) -> Result<Entry, Refusal>
        ensures { Gives (λ x. x) result (marks.mark_at first self.old) }
    {
        match first {
            MarkWord::Open => self.opened(),
            MarkWord::Park => self.parked(),
            MarkWord::Take => self.taken(),
            MarkWord::Close => self.closed(),
            MarkWord::Gate => self.gate(),
            MarkWord::Round => self.round(),
        }
    }
}
