//! The lines of records, and the counts of totals.
ghost use Rattle.std.specs.Prelude.{◌≡◌};
ghost use Rattle.hx_transcripts_parts.specs.Faults.{Gives};
ghost use Rattle.hx_transcripts_parts.specs.Keywords as words;
ghost use Rattle.hx_transcripts_parts.specs.Lexical.{read_word};
ghost use Rattle.hx_transcripts_parts.specs.Marks.{one_of};
ghost use Rattle.hx_transcripts_parts.specs.Records as records;

use crate::fault::{Refusal, Rule};
use crate::keywords::{RecordWord, cut_cause, is_closing, is_cut_closing, left_cause};
use crate::words::{Words, unless_broken};
use hx_base::{ConnId, ServerNo, SessionNo, Span, ThreadNo, Totals};
use hx_record::{Carried, CutCause, Kind, Left, LeftCause, Served, Told};
use hx_script::ServerPart;

/// The session and the number of a request.
#[derive(Clone, Copy, PartialEq, Eq, Debug)]
pub struct Begin {
    pub worker: ThreadNo,
    pub session: SessionNo,
    pub number: u64,
}

/// An exchange on a connection, with its ranges at both links.
#[derive(Clone, Copy, PartialEq, Eq, Debug)]
pub struct Exchange {
    pub server: ServerNo,
    pub id: ConnId,
    pub nth: u32,
    pub ask: Span,
    pub sent: Span,
    pub took: Span,
    pub gave: Span,
}

fn carried(x: Exchange, closing: bool) -> Carried
    ensures { result ≡ records.carried x closing }
{
    Carried {
        server: x.server,
        id: x.id,
        nth: x.nth,
        sent: x.sent,
        took: x.took,
        closing,
    }
}

fn served(begin: Begin, ask: Span, gave: Span, kind: Kind) -> Told
    ensures { result ≡ records.served begin ask gave kind }
{
    Told::Served(Served {
        worker: begin.worker,
        session: begin.session,
        number: begin.number,
        ask,
        gave,
        kind,
    })
}

fn is_early(why: CutCause) -> bool
    ensures { result ≡ records.is_early why }
{
    match why {
        CutCause::Early => true,
        CutCause::Ended => false,
        CutCause::Fault => false,
        CutCause::Broken => false,
        CutCause::Late => false,
        CutCause::Client => false,
        CutCause::Stop => false,
        CutCause::Silent => false,
    }
}

fn cause_of(closing: bool, word: &[u8]) -> Result<CutCause, Refusal>
    ensures { Gives (λ x. x) result (records.cause_in closing word.now) }
{
    let Some(why) = cut_cause(word) else {
        return Err(Refusal::Fault(Rule::BadLine));
    };
    unless_broken(is_early(why) && !closing, Rule::BadLine)?;
    Ok(why)
}

impl<'a> Words<'a> {
    fn begin(&mut self) -> Result<Begin, Refusal>
        ensures { Gives (λ x. (x, self.new)) result (records.begin_at self.old) }
    {
        let (worker, session) = self.who()?;
        let number = self.number(u64::MAX)?;
        Ok(Begin {
            worker,
            session,
            number,
        })
    }

    #[tactic(auto, unfolding(crate::specs::Records::exchange_at))]
    fn exchange(&mut self, servers: &[ServerPart]) -> Result<Exchange, Refusal>
        ensures { Gives (λ x. (x, self.new)) result (records.exchange_at servers.now self.old) }
    {
        let (server, id) = self.conn(servers)?;
        let nth = self.number(u32::MAX as u64)?;
        let ask = self.range(b"ask")?;
        let sent = self.range(b"sent")?;
        let took = self.range(b"took")?;
        let gave = self.range(b"gave")?;
        Ok(Exchange {
            server,
            id,
            nth: nth as u32,
            ask,
            sent,
            took,
            gave,
        })
    }

    fn closing(&mut self) -> Result<bool, Refusal>
        ensures { Gives (λ x. (x, self.new)) result (read_word (one_of words.closing_words) self.old) }
    {
        let word = self.word()?;
        match is_closing(word) {
            None => Err(Refusal::Fault(Rule::BadLine)),
            Some(closing) => Ok(closing),
        }
    }

    fn cut_closing(&mut self) -> Result<bool, Refusal>
        ensures { Gives (λ x. (x, self.new)) result (read_word (one_of words.cut_closing_words) self.old) }
    {
        let word = self.word()?;
        match is_cut_closing(word) {
            None => Err(Refusal::Fault(Rule::BadLine)),
            Some(closing) => Ok(closing),
        }
    }

    fn cut_cause(&mut self, closing: bool) -> Result<CutCause, Refusal>
        ensures { Gives (λ x. (x, self.new)) result (read_word (records.cause_in closing) self.old) }
    {
        let word = self.word()?;
        cause_of(closing, word)
    }

    fn left_cause(&mut self) -> Result<LeftCause, Refusal>
        ensures { Gives (λ x. (x, self.new)) result (read_word (one_of words.left_words) self.old) }
    {
        let word = self.word()?;
        match left_cause(word) {
            None => Err(Refusal::Fault(Rule::BadLine)),
            Some(cause) => Ok(cause),
        }
    }

    fn passed(&mut self, servers: &[ServerPart]) -> Result<Told, Refusal>
        ensures { Gives (λ x. x) result (records.pass_at servers.now self.old) }
    {
        let begin = self.begin()?;
        let x = self.exchange(servers)?;
        let closing = self.closing()?;
        self.end()?;
        Ok(served(begin, x.ask, x.gave, Kind::Passed(carried(x, closing))))
    }

    fn cut_off(&mut self, servers: &[ServerPart]) -> Result<Told, Refusal>
        ensures { Gives (λ x. x) result (records.cut_at servers.now self.old) }
    {
        let begin = self.begin()?;
        let x = self.exchange(servers)?;
        let closing = self.cut_closing()?;
        let why = self.cut_cause(closing)?;
        self.end()?;
        Ok(served(begin, x.ask, x.gave, Kind::Cut(carried(x, closing), why)))
    }

    fn own(&mut self) -> Result<Told, Refusal>
        ensures { Gives (λ x. x) result (records.own_at self.old) }
    {
        let begin = self.begin()?;
        let status = self.number(u16::MAX as u64)?;
        let ask = self.range(b"ask")?;
        let gave = self.range(b"gave")?;
        self.end()?;
        Ok(served(begin, ask, gave, Kind::Own(status as u16)))
    }

    fn left(&mut self) -> Result<Told, Refusal>
        ensures { Gives (λ x. x) result (records.left_at self.old) }
    {
        let (worker, session) = self.who()?;
        let ask = self.span()?;
        let cause = self.left_cause()?;
        self.end()?;
        Ok(Told::Left(Left {
            worker,
            session,
            ask,
            cause,
        }))
    }

    /// What stands behind the first word of a record's line.
    #[tactic(auto, unfolding(crate::specs::Records::record_at))]
    pub fn told(&mut self, servers: &[ServerPart], first: RecordWord) -> Result<Told, Refusal>
        ensures { Gives (λ x. x) result (records.record_at servers.now first self.old) }
    {
        match first {
            RecordWord::Pass => self.passed(servers),
            RecordWord::Cut => self.cut_off(servers),
            RecordWord::Own => self.own(),
            RecordWord::Left => self.left(),
        }
    }

    /// What stands behind the name on a line of totals.
    #[tactic(auto, unfolding(crate::specs::Records::totals_at))]
    pub fn totals(&mut self) -> Result<Totals, Refusal>
        ensures { Gives (λ x. x) result (records.totals_at self.old) }
    {
        let opened = self.count(b"open")?;
        let parked = self.count(b"park")?;
        let taken = self.count(b"take")?;
        let over = self.count(b"over")?;
        let care = self.count(b"care")?;
        let closed = self.count(b"close")?;
        self.end()?;
        Ok(Totals {
            opened,
            parked,
            taken,
            over,
            care,
            closed,
        })
    }
}
