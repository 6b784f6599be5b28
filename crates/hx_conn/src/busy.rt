//! A connection that carries an exchange.
ghost use Rattle.std.specs.Prelude.{◌≡◌, ◌+◌, ◌<◌, ◌≤◌, ◌||◌, false, length, IfOk, IfErr};
ghost use Rattle.hx_link.specs.Sources.{GotFits, PutFits, KeepsEnd};
ghost use Rattle.hx_link.specs.Links.{ReadKeepsLimit, WriteKeepsLimit};
ghost use Rattle.hx_link.specs.Nets.{NetDetaches};
ghost use Rattle.hx_conn.specs.Conns.{IsRested, IsBusy, AskIsWhole};
ghost use Rattle.hx_link.specs.Moves.{got_count, read_room};
ghost use Rattle.hx_conn.specs.Steps.{is_failed_got, WritesAsk, SendsAsk, ReadsAnswer, AnswerIsWhole};
ghost use Rattle.hx_conn.specs.Views.{busy_now, KeepsBusy};
ghost use Rattle.hx_conn.specs.Steps.{new_exchange, ask_ended, answer_ended, RestsOk, RestsNot};

use crate::conn::Conn;
use crate::exchange::{AnswerEnd, Exchange};
use crate::not_rested::NotRested;
use crate::rested::Rested;
use hx_base::{ConnId, Millis, ServerNo, Span};
use hx_link::{Got, Link, Net, Pipe, Put, read_into, write_from};
use hx_message::MethodKind;
use std::marker::Model;

/// How many bytes a read gave.
fn count_of(got: Got) -> usize
    ensures { result ≡ got_count got }
{
    match got {
        Got::Bytes(n) => n,
        Got::NotYet => 0,
        Got::End => 0,
        Got::Failed => 0,
    }
}

/// Whether this read failed, or a call before it did.
fn has_failed(before: bool, got: Got) -> bool
    ensures { result ≡ (before || is_failed_got got) }
{
    match got {
        Got::Bytes(_) => before,
        Got::NotYet => before,
        Got::End => before,
        Got::Failed => true,
    }
}

/// A connection that carries an exchange: whole exchanges and then the bytes of this one are behind
/// it, and it is attached to a loop.
#[derive(Drop)]
pub struct Busy<L: Link> {
    conn: Conn<L>,
    exchange: Exchange,
}

impl<L: Link> Model for Busy<L> {
    ghost use Rattle.hx_conn.specs.Conns.{BusyNow};
    ghost use Rattle.hx_conn.specs.Views.{busy_now, KeepsBusy};

    ghost Value = { BusyNow };

    ghost view = { λ b. busy_now
        (L.state b.conn.link) b.conn.id b.conn.server b.conn.uses b.exchange };

    ghost invariant = { λ b. KeepsBusy (busy_now
        (L.state b.conn.link) b.conn.id b.conn.server b.conn.uses b.exchange) b.conn.sent b.conn.taken };
}

impl<L: Link> Busy<L> {
    /// The connection of this link, on which an exchange begins.
    pub(crate) fn begun(conn: Conn<L>, method: MethodKind) -> Busy<L>
        requires { KeepsBusy (busy_now (L.state conn.link) conn.id conn.server conn.uses
            (new_exchange method conn.sent conn.taken)) conn.sent conn.taken }
        ensures { result ≡ busy_now (L.state conn.link) conn.id conn.server conn.uses
            (new_exchange method conn.sent conn.taken) }
    {
        let exchange = Exchange {
            method,
            sent_from: conn.sent,
            taken_from: conn.taken,
            asked: false,
            answer: None,
            failed: false,
        };
        Busy { conn, exchange }
    }

    /// The number of this exchange on the connection, counted from 1.
    pub fn nth(&self) -> u32
        ensures nth { result ≡ self.now.uses + 1 }
        ensures meaning { IsBusy self.now }
    {
        self.conn.uses as u32 + 1
    }

    /// The server for which it was dialled.
    pub fn server(&self) -> ServerNo
        ensures { result ≡ self.now.server }
    {
        self.conn.server
    }

    pub fn id(&self) -> ConnId
        ensures { result ≡ self.now.id }
    {
        self.conn.id
    }

    /// That of the request.
    pub fn method(&self) -> MethodKind
        ensures { result ≡ self.now.exchange.method }
    {
        self.exchange.method
    }

    /// What was sent in this exchange so far.
    pub fn sent(&self) -> Span
        ensures from { result.from ≡ self.now.exchange.sent_from }
        ensures to { result.to ≡ self.now.link.sent_count }
        ensures ordered { result.from ≤ result.to }
    {
        Span {
            from: self.exchange.sent_from,
            to: self.conn.sent,
        }
    }

    /// What was taken in this exchange so far.
    pub fn taken(&self) -> Span
        ensures from { result.from ≡ self.now.exchange.taken_from }
        ensures to { result.to ≡ self.now.link.taken_count }
        ensures ordered { result.from ≤ result.to }
    {
        Span {
            from: self.exchange.taken_from,
            to: self.conn.taken,
        }
    }

    /// Writes bytes of the request.
    pub fn write_ask(&mut self, now: Millis, bytes: &[u8]) -> Put
        requires some { 0 < length bytes.now }
        requires open { self.old.exchange.asked ≡ false }
        ensures fits { PutFits result (length bytes.now) }
        ensures offers { self.new.link.write_length ≡ length bytes.now }
        ensures writes { WritesAsk self.old self.new now.0 result bytes.now }
        ensures limit { WriteKeepsLimit self.old.link.sent_count result }
        ensures meaning { IsBusy self.new }
    {
        let put = self.conn.link.write(now, bytes);
        match put {
            Put::Bytes(n) => self.conn.sent += n as u64,
            Put::NotYet => {}
            Put::Failed => self.exchange.failed = true,
        }
        put
    }

    /// Writes once all that the pipe holds, as bytes of the request, and drops what was taken of it.
    pub fn send_ask(&mut self, now: Millis, from: &mut Pipe) -> Put
        requires some { 0 < length from.old.bytes }
        requires open { self.old.exchange.asked ≡ false }
        ensures fits { PutFits result (length from.old.bytes) }
        ensures offers { self.new.link.write_length ≡ length from.old.bytes }
        ensures sends { SendsAsk self.old self.new now.0 from.old from.new result }
        ensures limit { WriteKeepsLimit self.old.link.sent_count result }
        ensures meaning { IsBusy self.new }
    {
        let put = write_from(&mut self.conn.link, now, from);
        match put {
            Put::Bytes(n) => self.conn.sent += n as u64,
            Put::NotYet => {}
            Put::Failed => self.exchange.failed = true,
        }
        put
    }

    /// All bytes of the request were written.
    pub fn ask_ends(&mut self)
        requires { AskIsWhole self.old }
        ensures { self.new ≡ ask_ended self.old }
    {
        self.exchange.asked = true;
    }

    /// Reads once, at most 18,432 bytes and what the pipe has room for, and puts them at its end.
    pub fn read_answer(&mut self, now: Millis, into: &mut Pipe) -> Got
        requires room { length into.old.bytes < into.old.capacity }
        ensures fits { GotFits result (read_room into.old) }
        ensures asks { self.new.link.read_length ≡ read_room into.old }
        ensures reads { ReadsAnswer self.old self.new now.0 into.old into.new result }
        ensures ended { KeepsEnd self.old.link.told_end result }
        ensures limit { ReadKeepsLimit self.old.link.taken_count result }
        ensures meaning { IsBusy self.new }
    {
        let got = read_into(&mut self.conn.link, now, into);
        self.conn.taken += count_of(got) as u64;
        self.exchange.failed = has_failed(self.exchange.failed, got);
        got
    }

    /// The first so many bytes that were taken in this exchange are the whole answer. `persistent`:
    /// the connection may be used again after it.
    pub fn answer_ends(&mut self, length: u64, persistent: bool)
        requires { AnswerIsWhole self.old «length» persistent }
        ensures { self.new ≡ answer_ended self.old «length» persistent }
    {
        let len = length;
        self.exchange.answer = Some(AnswerEnd { len, persistent });
    }

    /// Attaches it to no loop and lets it rest.
    ///
    /// # Errors
    /// `NotRested` where it may not rest. It is handed back as it was.
    pub fn rest<N: Net<L = L>>(self, net: &mut N) -> Result<Rested<L>, NotRested<L>>
        ensures ok { IfOk result (RestsOk self (N.state net.old) (N.state net.new)) }
        ensures meaning { IfOk result IsRested }
        ensures back { IfErr result (λ r. RestsNot self (N.state net.old) (N.state net.new)
            r.busy r.why) }
    {
        match self.exchange.refusal(self.conn.taken, self.conn.uses) {
            Some(cause) => Err(NotRested {
                busy: self,
                why: cause.code(),
            }),
            None => {
                let mut conn = self.conn;
                net.detach(&mut conn.link);
                conn.uses += 1;
                Ok(Rested::of(conn))
            }
        }
    }

    /// Its link, attached to no loop, for the burial.
    pub fn end<N: Net<L = L>>(self, net: &mut N) -> L
        ensures detaches { NetDetaches (N.state net.old) (N.state net.new) self.link
            (L.state result) }
        ensures meaning { IsBusy self }
    {
        let mut link = self.conn.link;
        net.detach(&mut link);
        link
    }
}
