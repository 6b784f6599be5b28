//! How exchanges and sessions end early.

ghost use Rattle.std.specs.Prelude.{◌≡◌, ◌+◌, ◌≤◌, ℕ, [], IsTrue, false, List, Option, length, map, Some, None};
ghost use Rattle.hx_link.specs.Nets.{NetState};
ghost use Rattle.hx_link.specs.Pipes.{pipe as a_pipe};
ghost use Rattle.hx_message.specs.OwnAnswer.{IsOwnAnswer};
ghost use Rattle.hx_pool.specs.SeatView.{History};
ghost use Rattle.hx_record.specs.declared.served.Kind.TheVariants as kind;
ghost use Rattle.hx_record.specs.declared.served.LeftCause.TheVariants as left_cause;
ghost use Rattle.hx_base.specs.declared.numbers.ThreadNo.{ThreadNo};
ghost use Rattle.hx_connecting.specs.Around.{HasAround, abouts};
ghost use Rattle.hx_connecting.specs.Closing.{ClosesAt};
ghost use Rattle.hx_connecting.specs.Sessions.{Exchanging as OnConn};
ghost use Rattle.hx_connecting.specs.Journals.{room_of};
ghost use Rattle.hx_connecting.specs.Rooms.{RoomsStay};
ghost use Rattle.hx_session.specs.Parting.{PartTouches, StopCloses};
ghost use Rattle.hx_conn.specs.Conns.{IsBusy, RestedNow};
ghost use Rattle.hx_session.specs.declared.stage.Came.TheVariants.{Ends};
ghost use Rattle.hx_session.specs.Desks.{DeskNow, desk_now, IsDesk};
ghost use Rattle.hx_session.specs.Exchanged.{exchange_now};
ghost use Rattle.hx_session.specs.Causes.{Limits};
ghost use Rattle.hx_session.specs.First.{IsEnding};
ghost use Rattle.hx_session.specs.Leaving.{CameLeaves, LeavesBy};
ghost use Rattle.hx_session.specs.Owning.{CameOwn, OwnAt};
ghost use Rattle.hx_session.specs.Still.{HasMoved};
ghost use Rattle.hx_base.specs.Counts.{Rose};
ghost use Rattle.hx_session.specs.Decided.{Terms, CameDecides, CutsAs, EndsByServer, GivesUp, IsHeard, IsSilent, LosesServer, Ungiven};
ghost use Rattle.hx_session.specs.Over.{served_of, after_record};
ghost use Rattle.hx_session.specs.Stages.{Exchanging, Reading, StandsSo, own_stage, stage_of_answering, stage_now};
ghost use Rattle.hx_record.specs.declared.served.CutCause.TheVariants.{Early};
ghost use Rattle.hx_session.specs.Ending.{EndsEarly, CutsOff, EndsInCut, HasOwnText, AnswersOwn};
ghost use Rattle.hx_session.specs.Standing.{IsCounted, IsLeaving, IsPlaced, IsSet, KeepsPlace, Goes};
ghost use Rattle.hx_link.specs.Told.{most_bytes};
ghost use Rattle.hx_session.specs.Records.{cut_ends};
ghost use Rattle.hx_session.specs.Telling.{LeavesOwn, StopTells};

use crate::cuts::{answer_end, ask_end};
use crate::desk::Desk;
use crate::exchange::Exchange;
use crate::stage::{Answering, Came, Choosing, Ending, Stage};
use crate::step::Waiting;
use hx_answers::own_answer;
use hx_base::Millis;
use hx_conn::Rested;
use hx_connecting::close_busy;
use hx_link::{Link, Net, Pipe};
use hx_pool::Seat;
use hx_record::{CutCause, Kind, LeftCause, Served};

/// The session leaves without a record.
pub(crate) fn leave<L: Link>(cause: LeftCause, held: Option<Rested<L>>) -> Came<L>
    ensures { result ≡ Ends (record { cause = cause; held = held; served = None }) }
{
    Came::Ends(Ending {
        cause,
        held,
        served: None,
    })
}

/// The session leaves after this record.
pub(crate) fn leave_after<L: Link>(
    cause: LeftCause,
    held: Option<Rested<L>>,
    served: Served,
) -> Came<L>
    ensures { result ≡ Ends (record { cause = cause; held = held; served = Some served }) }
{
    Came::Ends(Ending {
        cause,
        held,
        served: Some(served),
    })
}

/// The proxy's own answer of that status.
fn own_text(status: u16) -> &'static [u8]
    requires { HasOwnText status }
    ensures { IsOwnAnswer status result.now }
{
    match own_answer(status) {
        Some(text) => text,
        None => unreachable!(),
    }
}

/// Fills an empty pipe.
fn put_text(pipe: &mut Pipe, text: &[u8])
    requires empty { pipe.old.bytes ≡ [] }
    requires fits { length text.now ≤ pipe.old.capacity }
    ensures { pipe.new ≡ a_pipe text.now pipe.old.capacity }
{
    pipe.fill(text);
}

/// Puts the proxy's own answer into the pipe to the client. Nothing was given yet since the last record.
pub(crate) fn answer<L: Link>(
    desk: &mut Desk<L>,
    status: u16,
    held: Option<Rested<L>>,
    now: Millis,
) -> Stage<L>
    requires known { HasOwnText status }
    requires desk { IsDesk (desk_now L.state desk.old) }
    ensures stage { stage_now result ≡ own_stage status held }
    ensures answers { AnswersOwn (desk_now L.state desk.old) (desk_now L.state desk.new) status }
{
    desk.drop_waiting();
    desk.waits_since = desk.wait_start(now);
    put_text(&mut desk.to, own_text(status));
    Stage::Answering(Answering { status, held })
}

/// The record of an own answer.
pub(crate) fn tell_own<L: Link>(desk: &mut Desk<L>, status: u16) -> Served
    requires few { desk.old.number ≤ desk.old.ask_from + 1 }
    requires within { desk.old.ask_from ≤ most_bytes }
    ensures served { result ≡ served_of (desk_now L.state desk.old) (kind.Own status) desk.old.taken }
    ensures next { desk_now L.state desk.new ≡ after_record (desk_now L.state desk.old) desk.old.taken }
{
    let all = desk.taken;
    desk.record(Kind::Own(status), all)
}

/// The record of an exchange that is cut off. Its connection is closed.
pub(crate) fn cut_off<L: Link, S: Seat<Rested<L>>, N: Net<L = L>>(
    desk: &mut Desk<L>,
    mut exchange: Exchange<L>,
    seats: &mut [S],
    net: &mut N,
    cause: CutCause,
) -> Served
    requires early { cause ≡ Early → EndsEarly (desk_now L.state desk.old) (exchange_now exchange) }
    requires set { IsSet (desk_now L.state desk.old) (Exchanging (exchange_now exchange)) (map S.history seats.old) }
    ensures rooms { RoomsStay S.history (room_of S.kept_from S.spare) seats.old seats.new }
    ensures cuts { CutsOff (desk_now L.state desk.old) (desk_now L.state desk.new) (exchange_now exchange) cause result }
    ensures closes { ClosesAt (map S.history seats.old) (map S.history seats.new) exchange.busy.server.0
        desk.old.session exchange.busy.id (N.state net.old) (N.state net.new) exchange.busy.link }
    ensures meaning { IsBusy exchange.busy }
    ensures around { (t : ThreadNo) → HasAround t desk.old.session (Some (OnConn exchange.busy)) (map S.history seats.old)
        → HasAround t desk.old.session None (map S.history seats.new) }
    ensures about { abouts (map S.history seats.new) ≡ abouts (map S.history seats.old) }
    ensures loop_ { (N.state net.new).loop_no ≡ (N.state net.old).loop_no }
{
    let ask_to = ask_end(desk, &mut exchange.ask);
    let took_to = answer_end(desk, &mut exchange);
    let carried = exchange.carried(took_to);
    let served = desk.record(Kind::Cut(carried, cause), ask_to);
    close_busy(seats, net, desk.session, exchange.busy);
    served
}

/// Cuts the exchange off, and the session leaves.
pub(crate) fn cut<L: Link, S: Seat<Rested<L>>, N: Net<L = L>>(
    desk: &mut Desk<L>,
    exchange: Exchange<L>,
    seats: &mut [S],
    net: &mut N,
    cause: CutCause,
) -> Came<L>
    requires early { cause ≡ Early → EndsEarly (desk_now L.state desk.old) (exchange_now exchange) }
    requires ends { cut_ends cause ≡ left_cause.Cut }
    requires set { IsSet (desk_now L.state desk.old) (Exchanging (exchange_now exchange)) (map S.history seats.old) }
    ensures rooms { RoomsStay S.history (room_of S.kept_from S.spare) seats.old seats.new }
    ensures ends { EndsInCut (desk_now L.state desk.old) (desk_now L.state desk.new) (exchange_now exchange) cause result }
    ensures goes { Goes (desk_now L.state desk.old) (Exchanging (exchange_now exchange)) (map S.history seats.old) (N.state net.old)
        (desk_now L.state desk.new) result (map S.history seats.new) (N.state net.new) }
    ensures moved { HasMoved result }
    ensures cuts { CutsAs (desk_now L.state desk.old) exchange.busy (N.state net.old) cause (desk_now L.state desk.new) result (N.state net.new) }
{
    let served = cut_off(desk, exchange, seats, net, cause);
    desk.drop_waiting();
    leave_after(LeftCause::Cut, None, served)
}

/// An own answer that is decided, and what the step waited for before.
#[derive(Clone, Copy)]
pub(crate) struct Own {
    pub status: u16,
    pub now: Millis,
    pub waits: Waiting,
}

/// The proxy answers itself in place of the server. Nothing was given yet since the last record.
pub(crate) fn give_up<L: Link, S: Seat<Rested<L>>, N: Net<L = L>>(
    desk: &mut Desk<L>,
    exchange: Exchange<L>,
    seats: &mut [S],
    net: &mut N,
    own: Own,
) -> Came<L>
    requires known { HasOwnText own.status }
    requires nothing { desk.old.given ≤ desk.old.gave_from }
    requires set { IsSet (desk_now L.state desk.old) (Exchanging (exchange_now exchange)) (map S.history seats.old) }
    ensures rooms { RoomsStay S.history (room_of S.kept_from S.spare) seats.old seats.new }
    ensures goes { Goes (desk_now L.state desk.old) (Exchanging (exchange_now exchange)) (map S.history seats.old) (N.state net.old)
        (desk_now L.state desk.new) result (map S.history seats.new) (N.state net.new) }
    ensures moved { HasMoved result }
    ensures gives { GivesUp (desk_now L.state desk.old) exchange.busy (N.state net.old) own.status (desk_now L.state desk.new) result (N.state net.new) }
{
    close_busy(seats, net, desk.session, exchange.busy);
    let stage = answer(desk, own.status, None, own.now);
    Came::Moved(stage, own.waits, None)
}

/// An event of the server's side: an own answer where nothing was given yet, else a cut.
pub(crate) fn end_by_server<L: Link, S: Seat<Rested<L>>, N: Net<L = L>>(
    desk: &mut Desk<L>,
    exchange: Exchange<L>,
    seats: &mut [S],
    net: &mut N,
    why: (CutCause, Own),
) -> Came<L>
    requires known { HasOwnText why.1.status }
    requires ends { cut_ends why.0 ≡ left_cause.Cut }
    requires timely { why.0 ≡ Early → ⊥ }
    requires set { IsSet (desk_now L.state desk.old) (Exchanging (exchange_now exchange)) (map S.history seats.old) }
    ensures rooms { RoomsStay S.history (room_of S.kept_from S.spare) seats.old seats.new }
    ensures goes { Goes (desk_now L.state desk.old) (Exchanging (exchange_now exchange)) (map S.history seats.old) (N.state net.old)
        (desk_now L.state desk.new) result (map S.history seats.new) (N.state net.new) }
    ensures moved { HasMoved result }
    ensures by_server { EndsByServer (desk_now L.state desk.old) exchange.busy (N.state net.old) why.0 why.1.status
        (desk_now L.state desk.new) result (N.state net.new) }
{
    if desk.has_given() {
        cut(desk, exchange, seats, net, why.0)
    } else {
        give_up(desk, exchange, seats, net, why.1)
    }
}

/// The connection was used before and gave nothing for this request, which isn't the session's first.
fn is_silent<L: Link>(desk: &Desk<L>, exchange: &Exchange<L>) -> bool
    ensures silent { IsTrue result → IsSilent (desk_now L.state desk.now) exchange.now.busy }
    ensures heard { result ≡ false → Ungiven (desk_now L.state desk.now) → IsHeard (desk_now L.state desk.now) exchange.now.busy }
{
    let taken = exchange.busy.taken();
    desk.number >= 2 && exchange.busy.nth() >= 2 && taken.from == taken.to && !desk.has_given()
}

/// The server's link ended early or failed.
pub(crate) fn lose_server<L: Link, S: Seat<Rested<L>>, N: Net<L = L>>(
    desk: &mut Desk<L>,
    exchange: Exchange<L>,
    seats: &mut [S],
    net: &mut N,
    why: (CutCause, Own),
) -> Came<L>
    requires known { HasOwnText why.1.status }
    requires ends { cut_ends why.0 ≡ left_cause.Cut }
    requires timely { why.0 ≡ Early → ⊥ }
    requires set { IsSet (desk_now L.state desk.old) (Exchanging (exchange_now exchange)) (map S.history seats.old) }
    ensures rooms { RoomsStay S.history (room_of S.kept_from S.spare) seats.old seats.new }
    ensures goes { Goes (desk_now L.state desk.old) (Exchanging (exchange_now exchange)) (map S.history seats.old) (N.state net.old)
        (desk_now L.state desk.new) result (map S.history seats.new) (N.state net.new) }
    ensures moved { HasMoved result }
    ensures loses { LosesServer (desk_now L.state desk.old) exchange.busy (N.state net.old) why.0 why.1.status
        (desk_now L.state desk.new) result (N.state net.new) }
{
    if is_silent(desk, &exchange) {
        cut(desk, exchange, seats, net, CutCause::Silent)
    } else {
        end_by_server(desk, exchange, seats, net, why)
    }
}

/// Leaves with the record of an own answer that wasn't given whole.
pub(crate) fn leave_answering<L: Link>(
    desk: &mut Desk<L>,
    answering: Answering<L>,
    left: LeftCause,
) -> Came<L>
    requires stands { StandsSo (desk_now L.state desk.old) (stage_of_answering answering) }
    requires counted { IsCounted (desk_now L.state desk.old) }
    requires cause { LeavesOwn (desk_now L.state desk.old) left }
    requires going { left ≡ left_cause.Stop → ⊥ }
    ensures goes { (seats : List History) (net : NetState) → IsPlaced (desk_now L.state desk.old) (stage_of_answering answering) seats
        → Goes (desk_now L.state desk.old) (stage_of_answering answering) seats net (desk_now L.state desk.new) result seats net }
    ensures left { (limits : Limits) (moment : ℕ) → LeavesBy limits moment (desk_now L.state desk.old) left
        → CameLeaves limits moment (desk_now L.state desk.new) result }
    ensures own { CameOwn answering.status (L.state desk.old.client).taken_count (desk_now L.state desk.new) result }
    ensures moved { HasMoved result }
{
    let Answering { status, held } = answering;
    let served = tell_own(desk, status);
    desk.drop_waiting();
    leave_after(left, held, served)
}

/// The client's link failed: the exchange that is under way is cut off, or the session leaves, with the record of an own answer where
/// one was decided.
pub(crate) fn leave_or_cut<L: Link, S: Seat<Rested<L>>, N: Net<L = L>>(
    desk: &mut Desk<L>,
    stage: Stage<L>,
    seats: &mut [S],
    net: &mut N,
) -> Came<L>
    requires placed { IsPlaced (desk_now L.state desk.old) (stage_now stage) (map S.history seats.old) }
    requires fault { 1 ≤ (L.state desk.old.client).faults }
    ensures rooms { RoomsStay S.history (room_of S.kept_from S.spare) seats.old seats.new }
    ensures goes { Goes (desk_now L.state desk.old) (stage_now stage) (map S.history seats.old) (N.state net.old)
        (desk_now L.state desk.new) result (map S.history seats.new) (N.state net.new) }
    ensures leaves { (held : Option RestedNow) → stage_now stage ≡ Reading held → IsEnding result }
    ensures left { (limits : Limits) (moment : ℕ) → CameLeaves limits moment (desk_now L.state desk.new) result }
    ensures own { (status taken : ℕ) → OwnAt status taken (desk_now L.state desk.old) (stage_now stage)
        → CameOwn status taken (desk_now L.state desk.new) result }
    ensures moved { HasMoved result }
    ensures decides { (limits : Terms) (moment : ℕ) (d0 : DeskNow)
        → Rose d0.client.faults (L.state desk.old.client).faults
        → CameDecides limits moment d0 (stage_now stage) (N.state net.old) (desk_now L.state desk.new) result (N.state net.new) }
{
    match stage {
        Stage::Exchanging(exchange) => cut(desk, exchange, seats, net, CutCause::Client),
        Stage::Reading(held) => leave(LeftCause::Fault, held),
        Stage::Choosing(Choosing { held, .. }) => leave(LeftCause::Fault, held),
        Stage::Answering(answering) => leave_answering(desk, answering, LeftCause::Fault),
        Stage::Left => Came::Moved(Stage::Left, Waiting::Nothing, None),
    }
}

/// What a stop makes of the stage: the record of what was under way, and what the session still holds.
pub(crate) fn stop_stage<L: Link, S: Seat<Rested<L>>, N: Net<L = L>>(
    desk: &mut Desk<L>,
    stage: Stage<L>,
    seats: &mut [S],
    net: &mut N,
) -> Ending<L>
    requires placed { IsPlaced (desk_now L.state desk.old) (stage_now stage) (map S.history seats.old) }
    ensures rooms { RoomsStay S.history (room_of S.kept_from S.spare) seats.old seats.new }
    ensures leaving { IsLeaving (desk_now L.state desk.new) result.held (map S.history seats.new) }
    ensures keeps { KeepsPlace (desk_now L.state desk.old) (desk_now L.state desk.new) (map S.history seats.old) (map S.history seats.new)
        (N.state net.old) (N.state net.new) }
    ensures touches { PartTouches (desk_now L.state desk.old) (stage_now stage) (map S.history seats.old) (N.state net.old)
        (desk_now L.state desk.new) (Ends result) (map S.history seats.new) (N.state net.new) }
    ensures closes { StopCloses (stage_now stage) desk.old.session (map S.history seats.old) (map S.history seats.new)
        (N.state net.old) (N.state net.new) result.held }
    ensures client { L.state desk.new.client ≡ L.state desk.old.client }
    ensures cause { result.cause ≡ left_cause.Stop }
    ensures told { StopTells (stage_now stage) (desk_now L.state desk.old) (desk_now L.state desk.new) result.served }
{
    let cause = LeftCause::Stop;
    match stage {
        Stage::Reading(held) => Ending {
            cause,
            held,
            served: None,
        },
        Stage::Choosing(Choosing { held, .. }) => Ending {
            cause,
            held,
            served: None,
        },
        Stage::Answering(Answering { status, held }) => {
            let served = Some(tell_own(desk, status));
            Ending {
                cause,
                held,
                served,
            }
        }
        Stage::Exchanging(exchange) => {
            let served = Some(cut_off(desk, exchange, seats, net, CutCause::Stop));
            Ending {
                cause,
                held: None,
                served,
            }
        }
        Stage::Left => Ending {
            cause,
            held: None,
            served: None,
        },
    }
}
