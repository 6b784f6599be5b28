//! What each line does.
ghost use Rattle.std.specs.Prelude.{◌≡◌};
ghost use Rattle.hx_config.specs.Views.{meaning};
ghost use Rattle.hx_script_parts.specs.Faults.{Gives};
ghost use Rattle.hx_script_parts.specs.Statements as means;

use crate::fault::{Refusal, Rule};
use crate::keywords::{FirstWord, OrderWord, first_word};
use crate::numbers::GREATEST;
use crate::reading::{Owner, Reading};
use crate::words::{Words, unless_broken};
use hx_base::{Order, ServerNo};
use hx_config::Config;
use hx_config_parts::same;
use hx_link::Piece;

const MOST_CLIENTS: usize = 1000;

const MOST_PLANS: usize = 4096;

fn refused(words: &mut Words<'_>) -> Result<bool, Refusal>
    ensures { Gives (λ b. b) result (means.refuse_at words.old) }
{
    if words.is_over() {
        return Ok(false);
    }
    let word = words.word()?;
    unless_broken(!same(word, b"refuse"), Rule::BadLine)?;
    words.end()?;
    Ok(true)
}

fn order_of(what: OrderWord, server: ServerNo) -> Order
    ensures { result ≡ means.order_of what server }
{
    match what {
        OrderWord::Drain => Order::Drain(server),
        OrderWord::Ready => Order::Ready(server),
    }
}

impl Reading {
    fn client_line(
        &mut self,
        config: &Config,
        line: u32,
        words: &mut Words<'_>,
    ) -> Result<(), Refusal>
        ensures { Gives (λ _. self.new) result
            (means.client_line (meaning config.now) line self.old words.old) }
    {
        let front = words.front(config)?;
        let worker = words.worker(config)?;
        let moment = words.moment()?;
        words.end()?;
        self.close()?;
        unless_broken(MOST_CLIENTS <= self.clients.len(), Rule::TooMany)?;
        self.begin(
            line,
            Owner::Client {
                front,
                worker,
                moment,
            },
        );
        self.moments.add(moment)
    }

    fn server_line(
        &mut self,
        config: &Config,
        line: u32,
        words: &mut Words<'_>,
    ) -> Result<(), Refusal>
        ensures { Gives (λ _. self.new) result
            (means.server_line (meaning config.now) line self.old words.old) }
    {
        let server = words.server(config)?;
        let refuse = refused(words)?;
        self.close()?;
        unless_broken(MOST_PLANS <= self.plans.len(), Rule::TooMany)?;
        self.begin(line, Owner::Server { server, refuse });
        Ok(())
    }

    fn piece_line(&mut self, words: &mut Words<'_>) -> Result<(), Refusal>
        ensures { Gives (λ _. self.new) result (means.piece_line self.old words.old) }
    {
        let at = words.moment()?;
        let after = words.number(0, GREATEST)?;
        let bytes = words.text(self.allocator())?;
        words.end()?;
        let mut link = self.take_link_at(at)?;
        link.pieces.push(Piece { at, after, bytes })?;
        link.latest = at;
        self.current = Some(link);
        self.moments.add(at)
    }

    fn end_line(&mut self, words: &mut Words<'_>) -> Result<(), Refusal>
        ensures { Gives (λ _. self.new) result (means.end_line self.old words.old) }
    {
        let at = words.moment()?;
        let after = words.number(0, GREATEST)?;
        words.end()?;
        let mut link = self.take_link_at(at)?;
        link.end = Some((at, after));
        self.current = Some(link);
        self.moments.add(at)
    }

    fn room_line(&mut self, words: &mut Words<'_>) -> Result<(), Refusal>
        ensures { Gives (λ _. self.new) result (means.room_line self.old words.old) }
    {
        let room = words.number(1, GREATEST)?;
        words.end()?;
        let mut link = self.take_link()?;
        unless_broken(link.room.is_some(), Rule::WrongPlace)?;
        link.room = Some(room);
        self.current = Some(link);
        Ok(())
    }

    fn fail_line(&mut self, words: &mut Words<'_>) -> Result<(), Refusal>
        ensures { Gives (λ _. self.new) result (means.fail_line self.old words.old) }
    {
        let fail = words.number(1, GREATEST)?;
        words.end()?;
        let mut link = self.take_link()?;
        unless_broken(link.fail.is_some(), Rule::WrongPlace)?;
        link.fail = Some(fail);
        self.current = Some(link);
        Ok(())
    }

    fn order_line(
        &mut self,
        what: OrderWord,
        config: &Config,
        words: &mut Words<'_>,
    ) -> Result<(), Refusal>
        ensures { Gives (λ _. self.new) result
            (means.order_line what (meaning config.now) self.old words.old) }
    {
        let moment = words.moment()?;
        let server = words.server(config)?;
        words.end()?;
        self.orders.push((moment, order_of(what, server)))?;
        self.moments.add(moment)
    }

    fn tick_line(&mut self, words: &mut Words<'_>) -> Result<(), Refusal>
        ensures { Gives (λ _. self.new) result (means.tick_line self.old words.old) }
    {
        let moment = words.moment()?;
        words.end()?;
        self.moments.add(moment)
    }

    #[tactic(auto, unfolding(crate::specs::Statements::said))]
    fn said(
        &mut self,
        first: FirstWord,
        config: &Config,
        line: u32,
        words: &mut Words<'_>,
    ) -> Result<(), Refusal>
        ensures { Gives (λ _. self.new) result
            (means.said first (meaning config.now) line self.old words.old) }
    {
        match first {
            FirstWord::Client => self.client_line(config, line, words),
            FirstWord::Server => self.server_line(config, line, words),
            FirstWord::Piece => self.piece_line(words),
            FirstWord::End => self.end_line(words),
            FirstWord::Room => self.room_line(words),
            FirstWord::Fail => self.fail_line(words),
            FirstWord::Drain => self.order_line(OrderWord::Drain, config, words),
            FirstWord::Ready => self.order_line(OrderWord::Ready, config, words),
            FirstWord::Tick => self.tick_line(words),
        }
    }

    /// Reads a line.
    #[tactic(auto, unfolding(crate::specs::Statements::line_read))]
    pub fn line(&mut self, config: &Config, line: u32, text: &[u8]) -> Result<(), Refusal>
        ensures { Gives (λ _. self.new) result
            (means.line_read (meaning config.now) line self.old text.now) }
    {
        let mut words = Words::of(text);
        let word = words.word()?;
        let Some(first) = first_word(word) else {
            return Err(Refusal::Fault(Rule::BadLine));
        };
        self.said(first, config, line, &mut words)
    }
}
