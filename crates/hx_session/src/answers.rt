//! What a step does in an exchange.

ghost use Rattle.std.specs.Prelude.{◌≡◌, ℕ, ◌⊎◌, ◌↔◌, ◌+◌, ◌≤◌, ◌||◌, ◌&&◌, not, IsTrue, false, List, map, Option, Some, None};
ghost use Rattle.httparse.specs.Grammar as grammar;
ghost use Rattle.hx_config.specs.declared.parts.Back.{Back};
ghost use Rattle.hx_link.specs.Links.{LinkFinishes};
ghost use Rattle.hx_message.specs.declared.BodyKind.TheVariants.{ToEnd};
ghost use Rattle.hx_frame.specs.declared.progress.MeterState.TheVariants.{Going, Bad};
ghost use Rattle.hx_pool.specs.SeatView.{History};
ghost use Rattle.hx_record.specs.declared.served.LeftCause.{LeftCause as Cause};
ghost use Rattle.hx_session_parts.specs.Answers.{IsInterimAt, IsAnswerTo};
ghost use Rattle.hx_session.specs.declared.exchange.AnswerWay.TheVariants.{Heads, Body};
ghost use Rattle.hx_session.specs.Desks.{DeskNow, desk_now};
ghost use Rattle.hx_session.specs.Ending.{HasOwnText};
ghost use Rattle.hx_session.specs.Exchanged.{ExchangeNow, exchange_now};
ghost use Rattle.hx_session.specs.Carried.{IsCarried};
ghost use Rattle.hx_session.specs.Over.{IsOver, IsTold, closing_of};
ghost use Rattle.hx_session.specs.Finishing.{MayDo, DoesAsk, DoesAnswer, HasBadAnswer, SpellsNone, DoesAtEnd, IsAnswerGiven, WasOver, EndsAnswer, RestsTo};
ghost use Rattle.hx_session.specs.Passing.{PassesBody, BeginsBody};
ghost use Rattle.hx_session.specs.Picking.{Picks};
ghost use Rattle.hx_session.specs.Seen.{conn_seen};
ghost use Rattle.hx_session.specs.Stages.{StageNow, Reading, Exchanging};
ghost use Rattle.hx_connecting.specs.Outcomes.{Outcome};
ghost use Rattle.hx_connecting.specs.Ways.{ExchangeStays, RestWay};
ghost use Rattle.hx_connecting.specs.Sessions.{Exchanging as OnConn};
ghost use Rattle.hx_connecting.specs.Journals.{room_of};
ghost use Rattle.hx_connecting.specs.Rooms.{RoomsStay};
ghost use Rattle.hx_connecting.specs.Touches.{Touch};
ghost use Rattle.hx_session.specs.Parting.{MayTouch, CountsOn, RestsSo, came_conn, came_served, first_of};
ghost use Rattle.hx_session.specs.Standing.{IsPlaced, CamePlaced, IsRoutedTo, CameRouted, KeepsDesk, KeepsAsk, IsSameConn, KeepsPlace, Goes};
ghost use Rattle.hx_session.specs.Telling.{IsStillTold, GivesPassed, CameTells};
ghost use Rattle.hx_session.specs.Still.{HasMoved};
ghost use Rattle.hx_session.specs.Causes.{Limits};
ghost use Rattle.hx_session.specs.Decided.{Terms, CameDecides, HasPassed, PassesOn};
ghost use Rattle.hx_session.specs.Waiting.{AskIdle, LeavesNothing, StaysOrMoves};

use crate::cuts::look_down;
use crate::desk::Desk;
use crate::ending::{Own, cut, end_by_server, leave_after, lose_server};
use crate::exchange::{AnswerWay, BodyWay, Exchange};
use crate::moves::settle_ask;
use crate::passed::tell_passed;
use crate::stage::{Came, Stage};
use crate::step::Waiting;
use hx_base::Millis;
use hx_conn::{Busy, Rested};
use hx_connecting::rest;
use hx_frame::{Meter, MeterState};
use hx_head::AnswerHead;
use hx_link::{Link, Net, Pipe};
use hx_message::BodyKind;
use hx_pool::Seat;
use hx_record::{CutCause, LeftCause, Served};
use hx_session_parts::{AnswerLook, Answered, pass_body, spell_answer};

/// The moment of a step, and what it waited for so far.
#[derive(Clone, Copy)]
pub(crate) struct At {
    pub now: Millis,
    pub waits: Waiting,
}

/// What an exchange can do at once.
#[derive(Clone, Copy, PartialEq, Eq, Debug)]
pub(crate) enum Do {
    /// The request's chunks are bad.
    BadAsk,
    /// The answer's chunks are bad.
    BadAnswer,
    PassAsk,
    /// The client ended before its request did.
    ClientEnded,
    LookForHead,
    PassAnswer,
    Finish,
    /// The server ended before its answer did.
    ServerEnded,
    Nothing,
}

fn is_going(state: MeterState) -> bool
    ensures { IsTrue result ↔ (state ≡ Going) }
{
    matches!(state, MeterState::Going)
}

fn is_bad(state: MeterState) -> bool
    ensures { IsTrue result ↔ (state ≡ Bad) }
{
    matches!(state, MeterState::Bad)
}

/// What is to do for the request.
fn next_of_ask<L: Link>(desk: &Desk<L>, exchange: &Exchange<L>) -> Do
    ensures { DoesAsk (desk_now L.state desk.now) (exchange_now exchange.now) result }
{
    if is_bad(exchange.ask.state) {
        return Do::BadAsk;
    }
    if !is_going(exchange.ask.state) {
        return Do::Nothing;
    }
    if desk.from.len() > 0 {
        return if desk.up.room() > 0 {
            Do::PassAsk
        } else {
            Do::Nothing
        };
    }
    if desk.ended {
        Do::ClientEnded
    } else {
        Do::Nothing
    }
}

/// What is to do for a body that is going, where nothing of it is at hand.
fn next_at_end<L: Link>(exchange: &Exchange<L>, body: &BodyWay, to: &Pipe) -> Do
    requires going { body.now.state ≡ Going }
    ensures { DoesAtEnd (exchange_now exchange.now) body.now to.now result }
{
    if !exchange.ended {
        return Do::Nothing;
    }
    if !body.to_end {
        return Do::ServerEnded;
    }
    if to.len() == 0 {
        Do::Finish
    } else {
        Do::Nothing
    }
}

/// What is to do for the body of an answer, which isn't bad.
fn next_of_body<L: Link>(desk: &Desk<L>, exchange: &Exchange<L>, body: &BodyWay) -> Do
    requires body { exchange.now.answer ≡ Body body.now }
    requires good { body.now.state ≡ Bad → ⊥ }
    ensures { DoesAnswer (desk_now L.state desk.now) (exchange_now exchange.now) result }
{
    match body.state {
        MeterState::Bad => unreachable!(),
        MeterState::Done => {
            if desk.to.len() == 0 {
                Do::Finish
            } else {
                Do::Nothing
            }
        }
        MeterState::Going => {
            if desk.down.len() == 0 {
                return next_at_end(exchange, body, &desk.to);
            }
            if desk.to.room() > 0 {
                Do::PassAnswer
            } else {
                Do::Nothing
            }
        }
    }
}

/// What is to do for the answer, whose body isn't bad.
fn next_of_answer<L: Link>(desk: &Desk<L>, exchange: &Exchange<L>) -> Do
    requires good { HasBadAnswer (exchange_now exchange.now) → ⊥ }
    ensures { DoesAnswer (desk_now L.state desk.now) (exchange_now exchange.now) result }
{
    match &exchange.answer {
        AnswerWay::Heads => Do::LookForHead,
        AnswerWay::Body(body) => next_of_body(desk, exchange, body),
    }
}

fn has_bad_answer<L: Link>(exchange: &Exchange<L>) -> bool
    ensures { IsTrue result ↔ HasBadAnswer (exchange_now exchange.now) }
{
    match &exchange.answer {
        AnswerWay::Heads => false,
        AnswerWay::Body(body) => is_bad(body.state),
    }
}

/// What is to do next, the bad ends first.
pub(crate) fn next_of<L: Link>(desk: &Desk<L>, exchange: &Exchange<L>) -> Do
    ensures { MayDo (desk_now L.state desk.now) (exchange_now exchange.now) result }
{
    match next_of_ask(desk, exchange) {
        Do::BadAsk => Do::BadAsk,
        _ if has_bad_answer(exchange) => Do::BadAnswer,
        Do::Nothing => next_of_answer(desk, exchange),
        ask => ask,
    }
}

/// Passes the bytes of the request that are at hand.
fn pass_ask<L: Link>(desk: &mut Desk<L>, exchange: &mut Exchange<L>)
    requires carried { IsCarried (desk_now L.state desk.old) (exchange_now exchange.old) }
    requires going { exchange.old.ask.state ≡ Going }
    ensures carried { IsCarried (desk_now L.state desk.new) (exchange_now exchange.new) }
    ensures conn { IsSameConn (exchange_now exchange.old) (exchange_now exchange.new) }
    ensures stays { ExchangeStays exchange.old.busy exchange.new.busy }
    ensures good { exchange.new.busy.exchange.failed ≡ exchange.old.busy.exchange.failed }
    ensures keeps { KeepsAsk (desk_now L.state desk.old) (desk_now L.state desk.new) }
    ensures told { IsStillTold (desk_now L.state desk.old) (Exchanging (exchange_now exchange.old))
        (desk_now L.state desk.new) (Exchanging (exchange_now exchange.new)) }
{
    let fed = pass_body(&mut exchange.ask.meter, &mut desk.from, &mut desk.up);
    exchange.ask.state = fed.state;
    settle_ask(desk, exchange);
}

/// Passes the bytes of a body that are at hand, and counts them.
fn pass_part(body: &mut BodyWay, down: &mut Pipe, to: &mut Pipe) -> usize
    ensures passes { PassesBody body.old body.new down.old down.new to.old to.new result }
{
    let fed = pass_body(&mut body.meter, down, to);
    body.state = fed.state;
    fed.used
}

/// The sum of two numbers, which is within a third.
fn sum_within(a: u64, b: u64, most: u64) -> u64
    requires { a + b ≤ most }
    ensures { result ≡ a + b }
{
    let _most = most;
    a + b
}

/// Passes the bytes of the answer's body that are at hand.
fn pass_answer<L: Link>(desk: &mut Desk<L>, exchange: &mut Exchange<L>, now: Millis)
    requires carried { IsCarried (desk_now L.state desk.old) (exchange_now exchange.old) }
    ensures carried { IsCarried (desk_now L.state desk.new) (exchange_now exchange.new) }
    ensures conn { IsSameConn (exchange_now exchange.old) (exchange_now exchange.new) }
    ensures stays { ExchangeStays exchange.old.busy exchange.new.busy }
    ensures good { exchange.new.busy.exchange.failed ≡ exchange.old.busy.exchange.failed }
    ensures keeps { KeepsAsk (desk_now L.state desk.old) (desk_now L.state desk.new) }
    ensures told { IsStillTold (desk_now L.state desk.old) (Exchanging (exchange_now exchange.old))
        (desk_now L.state desk.new) (Exchanging (exchange_now exchange.new)) }
{
    desk.waits_since = desk.wait_start(now);
    let taken_to = exchange.busy.taken().to;
    if let AnswerWay::Body(body) = &mut exchange.answer {
        let used = pass_part(body, &mut desk.down, &mut desk.to);
        exchange.answered = sum_within(exchange.answered, used as u64, taken_to);
    }
}

fn runs_to_end(kind: BodyKind) -> bool
    ensures { IsTrue result ↔ (kind ≡ ToEnd) }
{
    matches!(kind, BodyKind::ToEnd)
}

fn either(a: bool, b: bool) -> bool
    ensures { result ≡ (a || b) }
{
    a || b
}

/// The way of a body whose head is spelled. The answer closes the client's connection where the request wanted that,
/// where the body runs to the end, or where it comes early.
fn body_way(answered: &Answered, wants_close: bool, written: bool) -> BodyWay
    ensures { BeginsBody answered.now wants_close written result }
{
    let to_end = runs_to_end(answered.kind);
    let mut meter = Meter::new(answered.kind);
    let state = meter.feed(&[]).state;
    BodyWay {
        meter,
        state,
        to_end,
        persists: answered.persists,
        closing: either(wants_close, either(to_end, !written)),
        early: !written,
    }
}

/// Spells the head of an interim answer. False: it has no room yet.
fn spell_interim<L: Link>(
    desk: &mut Desk<L>,
    exchange: &mut Exchange<L>,
    head: &AnswerHead,
    now: Millis,
) -> bool
    requires carried { IsCarried (desk_now L.state desk.old) (exchange_now exchange.old) }
    requires heads { exchange.old.answer ≡ Heads }
    requires head { IsInterimAt desk.old.down.bytes head.now }
    ensures carried { IsCarried (desk_now L.state desk.new) (exchange_now exchange.new) }
    ensures conn { IsSameConn (exchange_now exchange.old) (exchange_now exchange.new) }
    ensures stays { ExchangeStays exchange.old.busy exchange.new.busy }
    ensures good { exchange.new.busy.exchange.failed ≡ exchange.old.busy.exchange.failed }
    ensures keeps { KeepsAsk (desk_now L.state desk.old) (desk_now L.state desk.new) }
    ensures told { IsStillTold (desk_now L.state desk.old) (Exchanging (exchange_now exchange.old))
        (desk_now L.state desk.new) (Exchanging (exchange_now exchange.new)) }
    ensures full { result ≡ false → SpellsNone (desk_now L.state desk.old) (exchange_now exchange.old)
        (desk_now L.state desk.new) (exchange_now exchange.new) }
{
    let taken_to = exchange.busy.taken().to;
    let since = desk.wait_start(now);
    if !spell_answer(&mut desk.down, &mut desk.to, head, false) {
        return false;
    }
    desk.waits_since = since;
    exchange.answered = sum_within(exchange.answered, head.length as u64, taken_to);
    true
}

/// Spells the head of a final answer. False: it has no room yet.
fn spell_final<L: Link>(
    desk: &mut Desk<L>,
    exchange: &mut Exchange<L>,
    answered: &Answered,
    now: Millis,
) -> bool
    requires carried { IsCarried (desk_now L.state desk.old) (exchange_now exchange.old) }
    requires heads { exchange.old.answer ≡ Heads }
    requires answered { (g : grammar.ResponseHead) × IsAnswerTo exchange.old.busy.exchange.method desk.old.down.bytes answered.now g }
    ensures carried { IsCarried (desk_now L.state desk.new) (exchange_now exchange.new) }
    ensures conn { IsSameConn (exchange_now exchange.old) (exchange_now exchange.new) }
    ensures stays { ExchangeStays exchange.old.busy exchange.new.busy }
    ensures good { exchange.new.busy.exchange.failed ≡ exchange.old.busy.exchange.failed }
    ensures keeps { KeepsAsk (desk_now L.state desk.old) (desk_now L.state desk.new) }
    ensures told { IsStillTold (desk_now L.state desk.old) (Exchanging (exchange_now exchange.old))
        (desk_now L.state desk.new) (Exchanging (exchange_now exchange.new)) }
    ensures full { result ≡ false → SpellsNone (desk_now L.state desk.old) (exchange_now exchange.old)
        (desk_now L.state desk.new) (exchange_now exchange.new) }
{
    let taken_to = exchange.busy.taken().to;
    let body = body_way(answered, exchange.ask.wants_close, exchange.ask.written);
    let since = desk.wait_start(now);
    if !spell_answer(&mut desk.down, &mut desk.to, &answered.head, body.closing) {
        return false;
    }
    desk.waits_since = since;
    exchange.answered = sum_within(exchange.answered, answered.head.length as u64, taken_to);
    exchange.answer = AnswerWay::Body(body);
    true
}

/// The exchange goes on.
fn goes_on<L: Link>(exchange: Exchange<L>, waits: Waiting, moved: bool) -> Came<L>
    ensures placed { (d : DeskNow) (seats : List History) → IsPlaced d (Exchanging (exchange_now exchange)) seats → CamePlaced d result seats }
    ensures conn { came_conn result ≡ conn_seen (Exchanging (exchange_now exchange)) }
    ensures none { came_served result ≡ None }
    ensures routed { (back : Back) → IsRoutedTo back (Exchanging (exchange_now exchange)) → CameRouted back result }
    ensures picks { (hs : List History) → Picks (conn_seen (Exchanging (exchange_now exchange))) None hs result hs }
    ensures told { (d0 d : DeskNow) (s0 : StageNow) → IsStillTold d0 s0 d (Exchanging (exchange_now exchange))
        → CameTells d0 s0 d result }
    ensures still { StaysOrMoves (exchange_now exchange) moved result }
    ensures passes { PassesOn result }
{
    let stage = Stage::Exchanging(exchange);
    if moved {
        Came::Moved(stage, waits, None)
    } else {
        Came::On(stage, waits)
    }
}

/// A fault of the server's side, which a 502 answers where nothing was given yet.
fn bad_gateway(cause: CutCause, now: Millis, waits: Waiting) -> (CutCause, Own)
    ensures known { HasOwnText result.1.status }
    ensures same { result.0 ≡ cause }
    ensures status { result.1.status ≡ 502 }
{
    (
        cause,
        Own {
            status: 502,
            now,
            waits,
        },
    )
}

/// Looks for the head of an answer.
fn look_for_head<L: Link, S: Seat<Rested<L>>, N: Net<L = L>>(
    desk: &mut Desk<L>,
    mut exchange: Exchange<L>,
    seats: &mut [S],
    net: &mut N,
    at: At,
) -> Came<L>
    requires heads { exchange.answer ≡ Heads }
    requires placed { IsPlaced (desk_now L.state desk.old) (Exchanging (exchange_now exchange)) (map S.history seats.old) }
    ensures rooms { RoomsStay S.history (room_of S.kept_from S.spare) seats.old seats.new }
    ensures goes { Goes (desk_now L.state desk.old) (Exchanging (exchange_now exchange)) (map S.history seats.old) (N.state net.old)
        (desk_now L.state desk.new) result (map S.history seats.new) (N.state net.new) }
    ensures still { AskIdle (desk_now L.state desk.old) (exchange_now exchange)
        → LeavesNothing (desk_now L.state desk.old) (Exchanging (exchange_now exchange)) (desk_now L.state desk.new) result }
    ensures decides { (limits : Terms) (moment : ℕ) → CameDecides limits moment (desk_now L.state desk.old) (Exchanging (exchange_now exchange))
        (N.state net.old) (desk_now L.state desk.new) result (N.state net.new) }
{
    match look_down(exchange.busy.method(), &mut desk.down) {
        AnswerLook::Interim(head) => {
            let spelled = spell_interim(desk, &mut exchange, &head, at.now);
            goes_on(exchange, at.waits, spelled)
        }
        AnswerLook::Final(answered) => {
            let spelled = spell_final(desk, &mut exchange, &answered, at.now);
            goes_on(exchange, at.waits, spelled)
        }
        AnswerLook::Broken => {
            let why = bad_gateway(CutCause::Broken, at.now, at.waits);
            end_by_server(desk, exchange, seats, net, why)
        }
        AnswerLook::More => {
            if exchange.ended {
                let why = bad_gateway(CutCause::Ended, at.now, at.waits);
                lose_server(desk, exchange, seats, net, why)
            } else {
                goes_on(exchange, at.waits, false)
            }
        }
    }
}

/// A connection persists after an answer that says so and doesn't run to the end.
fn lasts(persists: bool, to_end: bool) -> bool
    ensures { result ≡ (persists && not to_end) }
{
    persists && !to_end
}

/// The whole answer was taken.
fn end_answer<L: Link>(exchange: Exchange<L>) -> Busy<L>
    requires { WasOver (exchange_now exchange) }
    ensures { EndsAnswer exchange.answer exchange.busy result exchange.answered }
{
    let Exchange {
        mut busy,
        answered,
        answer,
        ..
    } = exchange;
    if let AnswerWay::Body(body) = &answer {
        let persistent = lasts(body.persists, body.to_end);
        busy.answer_ends(answered, persistent);
    }
    busy
}

/// The exchange passed: its connection rests or is closed, and its record.
fn pass<L: Link, S: Seat<Rested<L>>, N: Net<L = L>>(
    desk: &mut Desk<L>,
    exchange: Exchange<L>,
    seats: &mut [S],
    net: &mut N,
) -> (Served, Option<Rested<L>>)
    requires placed { IsPlaced (desk_now L.state desk.old) (Exchanging (exchange_now exchange)) (map S.history seats.old) }
    requires over { (b : BodyWay) × IsOver (desk_now L.state desk.old) (exchange_now exchange) b }
    ensures rooms { RoomsStay S.history (room_of S.kept_from S.spare) seats.old seats.new }
    ensures told { (why : Cause) → IsTold (L.state desk.old.client) exchange.busy.link why result.0 }
    ensures placed { IsPlaced (desk_now L.state desk.new) (Reading result.1) (map S.history seats.new) }
    ensures keeps { KeepsPlace (desk_now L.state desk.old) (desk_now L.state desk.new) (map S.history seats.old) (map S.history seats.new)
        (N.state net.old) (N.state net.new) }
    ensures touches { (z : Outcome) → RestWay desk.old.worker desk.old.session (first_of (desk_now L.state desk.old)) (Some (OnConn exchange.busy)) z
        (map S.history seats.old) (map S.history seats.new) (N.state net.old) (N.state net.new) result.1 (Some result.0) }
    ensures server { RestsTo exchange.busy.server result.1 }
    ensures gives { GivesPassed (desk_now L.state desk.old) (desk_now L.state desk.new) (exchange_now exchange) result.0 }
{
    let served = tell_passed(desk, &exchange);
    let busy = end_answer(exchange);
    // It says that the link's counts are those of its bytes.
    let _nth = busy.nth();
    let held = rest(busy, seats, net, desk.session);
    let unread = desk.down.len();
    desk.down.drop_front(unread);
    (served, held)
}

/// The whole answer was given.
fn finish<L: Link, S: Seat<Rested<L>>, N: Net<L = L>>(
    desk: &mut Desk<L>,
    exchange: Exchange<L>,
    seats: &mut [S],
    net: &mut N,
    waits: Waiting,
) -> Came<L>
    requires whole { IsAnswerGiven (desk_now L.state desk.old) (exchange_now exchange) }
    requires placed { IsPlaced (desk_now L.state desk.old) (Exchanging (exchange_now exchange)) (map S.history seats.old) }
    ensures rooms { RoomsStay S.history (room_of S.kept_from S.spare) seats.old seats.new }
    ensures goes { Goes (desk_now L.state desk.old) (Exchanging (exchange_now exchange)) (map S.history seats.old) (N.state net.old)
        (desk_now L.state desk.new) result (map S.history seats.new) (N.state net.new) }
    ensures moved { HasMoved result }
    ensures decides { (limits : Terms) (moment : ℕ) → CameDecides limits moment (desk_now L.state desk.old) (Exchanging (exchange_now exchange))
        (N.state net.old) (desk_now L.state desk.new) result (N.state net.new) }
{
    if exchange.is_early() {
        return cut(desk, exchange, seats, net, CutCause::Early);
    }
    let closing = exchange.is_closing();
    let (served, held) = pass(desk, exchange, seats, net);
    after_pass(desk, closing, held, waits, served)
}

/// Nothing more is written to the client.
fn finish_client<L: Link>(client: &mut L)
    ensures finishes { LinkFinishes (L.state client.old) (L.state client.new) }
{
    client.finish();
}

/// The session reads the next request, or leaves.
fn after_pass<L: Link>(
    desk: &mut Desk<L>,
    closing: bool,
    held: Option<Rested<L>>,
    waits: Waiting,
    served: Served,
) -> Came<L>
    ensures placed { (seats : List History) → IsPlaced (desk_now L.state desk.old) (Reading held) seats → CamePlaced (desk_now L.state desk.new) result seats }
    ensures touches { (d : DeskNow) (x : Option Touch) → (x ≡ None) ⊎ (held ≡ None)
        → MayTouch result x × CountsOn d (desk_now L.state desk.new) result }
    ensures rests { RestsSo result held served }
    ensures keeps { KeepsDesk (desk_now L.state desk.old) (desk_now L.state desk.new) }
    ensures routed { (back : Back) → IsRoutedTo back (Reading held) → CameRouted back result }
    ensures picks { (e : ExchangeNow) (olds news : List History) → Picks (conn_seen (Exchanging e)) None olds result news }
    ensures told { (d : DeskNow) (e : ExchangeNow) → closing ≡ closing_of e.answer
        → GivesPassed d (desk_now L.state desk.old) e served → ((why : Cause) → IsTold d.client e.busy.link why served)
        → CameTells d (Exchanging e) (desk_now L.state desk.new) result }
    ensures moved { HasMoved result }
    ensures passed { HasPassed result served }
{
    if closing {
        finish_client(&mut desk.client);
        leave_after(LeftCause::Closing, held, served)
    } else {
        Came::Moved(Stage::Reading(held), waits, Some(served))
    }
}

/// The request's chunks are bad.
fn refuse_ask<L: Link, S: Seat<Rested<L>>, N: Net<L = L>>(
    desk: &mut Desk<L>,
    exchange: Exchange<L>,
    seats: &mut [S],
    net: &mut N,
    at: At,
) -> Came<L>
    requires bad { exchange.ask.state ≡ Bad }
    requires placed { IsPlaced (desk_now L.state desk.old) (Exchanging (exchange_now exchange)) (map S.history seats.old) }
    ensures rooms { RoomsStay S.history (room_of S.kept_from S.spare) seats.old seats.new }
    ensures goes { Goes (desk_now L.state desk.old) (Exchanging (exchange_now exchange)) (map S.history seats.old) (N.state net.old)
        (desk_now L.state desk.new) result (map S.history seats.new) (N.state net.new) }
    ensures moved { HasMoved result }
    ensures decides { (limits : Terms) (moment : ℕ) → CameDecides limits moment (desk_now L.state desk.old) (Exchanging (exchange_now exchange))
        (N.state net.old) (desk_now L.state desk.new) result (N.state net.new) }
{
    let own = Own {
        status: 400,
        now: at.now,
        waits: at.waits,
    };
    end_by_server(desk, exchange, seats, net, (CutCause::Client, own))
}

/// The phase of an exchange.
pub(crate) fn go_on<L: Link, S: Seat<Rested<L>>, N: Net<L = L>>(
    desk: &mut Desk<L>,
    mut exchange: Exchange<L>,
    seats: &mut [S],
    net: &mut N,
    at: At,
) -> Came<L>
    requires placed { IsPlaced (desk_now L.state desk.old) (Exchanging (exchange_now exchange)) (map S.history seats.old) }
    ensures rooms { RoomsStay S.history (room_of S.kept_from S.spare) seats.old seats.new }
    ensures goes { Goes (desk_now L.state desk.old) (Exchanging (exchange_now exchange)) (map S.history seats.old) (N.state net.old)
        (desk_now L.state desk.new) result (map S.history seats.new) (N.state net.new) }
    ensures still { LeavesNothing (desk_now L.state desk.old) (Exchanging (exchange_now exchange)) (desk_now L.state desk.new) result }
    ensures decides { (limits : Terms) (moment : ℕ) → CameDecides limits moment (desk_now L.state desk.old) (Exchanging (exchange_now exchange))
        (N.state net.old) (desk_now L.state desk.new) result (N.state net.new) }
{
    match next_of(desk, &exchange) {
        Do::BadAsk => refuse_ask(desk, exchange, seats, net, at),
        Do::BadAnswer => {
            let why = bad_gateway(CutCause::Broken, at.now, at.waits);
            end_by_server(desk, exchange, seats, net, why)
        }
        Do::PassAsk => {
            pass_ask(desk, &mut exchange);
            goes_on(exchange, at.waits, true)
        }
        Do::ClientEnded => cut(desk, exchange, seats, net, CutCause::Client),
        Do::LookForHead => look_for_head(desk, exchange, seats, net, at),
        Do::PassAnswer => {
            pass_answer(desk, &mut exchange, at.now);
            goes_on(exchange, at.waits, true)
        }
        Do::Finish => finish(desk, exchange, seats, net, at.waits),
        Do::ServerEnded => {
            let why = bad_gateway(CutCause::Ended, at.now, at.waits);
            lose_server(desk, exchange, seats, net, why)
        }
        Do::Nothing => goes_on(exchange, at.waits, false),
    }
}
