//! The parts of a step, in their order.

ghost use Rattle.std.specs.Prelude.{◌≡◌, ◌⊎◌, ◌↔◌, ◌<◌, ◌≤◌, ℕ, IsTrue, IfSome, List, Option, length, map, true, false, None, Some};
ghost use Rattle.hx_base.specs.declared.numbers.ServerNo.{ServerNo};
ghost use Rattle.hx_config.specs.declared.parts.Back.{Back};
ghost use Rattle.hx_config.specs.Limits.{all_servers};
ghost use Rattle.hx_link.specs.Nets.{NetState};
ghost use Rattle.hx_link.specs.Told.{LinkState};
ghost use Rattle.hx_pool.specs.SeatView.{History};
ghost use Rattle.hx_connecting.specs.Around.{abouts};
ghost use Rattle.hx_connecting.specs.Choice.{HaveSeats};
ghost use Rattle.hx_connecting.specs.Journals.{room_of};
ghost use Rattle.hx_connecting.specs.Rooms.{RoomsStay};
ghost use Rattle.hx_connecting.specs.Sessions.{Holding};
ghost use Rattle.hx_session.specs.Desks.{DeskNow, desk_now};
ghost use Rattle.hx_session.specs.Exchanged.{ExchangeNow, exchange_now};
ghost use Rattle.hx_session.specs.Causes.{HasCome, Limits, Unserved};
ghost use Rattle.hx_session.specs.Fits.{limits_with};
ghost use Rattle.hx_session.specs.Leaving.{CameLeaves, LeavesBy};
ghost use Rattle.hx_session.specs.Owning.{CameOwn, DoneOwn, OwnAt};
ghost use Rattle.hx_record.specs.declared.served.LeftCause.TheVariants as left_cause;
ghost use Rattle.hx_session.specs.First.{IsFresh, FreshOn, ReadOn, WasRead};
ghost use Rattle.hx_session.specs.Ending.{HasOwnText};
ghost use Rattle.hx_session.specs.declared.moves.Move.TheVariants.{Failed};
ghost use Rattle.hx_session.specs.Moves.{with_client};
ghost use Rattle.hx_session.specs.Picking.{Picks, PicksTo, PicksSo, PicksAll};
ghost use Rattle.hx_session.specs.Seen.{conn_seen, chosen_seen};
ghost use Rattle.hx_session.specs.Stages.{StageNow, Left as Gone, Reading, Exchanging, StandsSo, IsBetween, stage_now, stage_of_answering, stage_of_choosing};
ghost use Rattle.hx_session.specs.Standing.{IsCounted, IsPlaced, CamePlaced, IsRoutedTo, CameRouted, KeepsPlace, KeepsOver, Goes, IsDone, IsGone, IsLeaving, IsSet};
ghost use Rattle.hx_session.specs.Decided.{CameAsks, CameOut, HasLack, IsMoved, Lack, LacksAt, OutOf, Terms, came_out, terms_of, waits_out, CameDecides, ClientComes, DoneDecides, IsQuiet, IsSoFar, ServerLate, status_for};
ghost use Rattle.hx_session.specs.Still.{IsStill, HasMoved, StaysThere, WantsClient, WhereOn};
ghost use Rattle.hx_session.specs.Waiting.{IsGiven, IsIdle, IsNone, IsPaused, IsUnread, LeavesNothing, PausedOrChosen, StandsStill};
ghost use Rattle.hx_session.specs.Telling.{MoveTells, CameTells, TellsEnd, DoneTells};
ghost use Rattle.hx_connecting.specs.Ways.{SomeWay};
ghost use Rattle.hx_session.specs.Parting.{CameKeeps, LetsGo, TouchesOn, TouchesAll, first_of, outcome_of};
ghost use Rattle.hx_session.specs.Seen.{conn_seen};
ghost use Rattle.hx_session.specs.declared.stage.Came.TheVariants.{Ends};

use crate::answers::{At, go_on};
use crate::asks::{choose_server, go_out, read_head};
use crate::deadline::{Late, find_late};
use crate::desk::Desk;
use crate::ending::{
    Own, answer, cut, end_by_server, leave, leave_after, leave_answering, leave_or_cut,
    lose_server, tell_own,
};
use crate::exchange::Exchange;
use crate::moves::{Move, give, read_client, read_server, send};
use crate::stage::{Answering, Came, Choosing, Ending, Stage};
use crate::step::{Waiting, Waits};
use crate::world::Scene;
use hx_base::Millis;
use hx_config::Back;
use hx_conn::Rested;
use hx_connecting::close_any;
use hx_frame::MeterState;
use hx_link::{Link, Net};
use hx_pool::Seat;
use hx_record::{CutCause, Left, LeftCause, Served};

/// What a step came to: where the session stands now, and what is told.
#[derive(Drop)]
pub(crate) struct Done<L: Link> {
    pub stage: Stage<L>,
    pub moved: bool,
    pub waits: Waits,
    pub served: Option<Served>,
    pub left: Option<Left>,
}

/// The client's deadline has come in an exchange.
fn cut_late<L: Link, S: Seat<Rested<L>>, N: Net<L = L>>(
    desk: &mut Desk<L>,
    exchange: Exchange<L>,
    seats: &mut [S],
    net: &mut N,
    own: Own,
) -> Came<L>
    requires known { HasOwnText own.status }
    requires placed { IsPlaced (desk_now L.state desk.old) (Exchanging (exchange_now exchange)) (map S.history seats.old) }
    ensures rooms { RoomsStay S.history (room_of S.kept_from S.spare) seats.old seats.new }
    ensures goes { Goes (desk_now L.state desk.old) (Exchanging (exchange_now exchange)) (map S.history seats.old) (N.state net.old)
        (desk_now L.state desk.new) result (map S.history seats.new) (N.state net.new) }
    ensures moved { HasMoved result }
    ensures decides { (limits : Terms) (moment : ℕ) → HasCome limits.client desk.old.since.0 moment → own.status ≡ 408
        → CameDecides limits moment (desk_now L.state desk.old) (Exchanging (exchange_now exchange)) (N.state net.old) (desk_now L.state desk.new) result (N.state net.new) }
{
    if desk.to.len() > 0 {
        return cut(desk, exchange, seats, net, CutCause::Client);
    }
    end_by_server(desk, exchange, seats, net, (CutCause::Client, own))
}

/// The client's deadline has come while a head is read: the session leaves, where nothing was taken of it.
fn read_late<L: Link>(desk: &mut Desk<L>, held: Option<Rested<L>>, own: Own) -> Came<L>
    requires known { HasOwnText own.status }
    requires between { IsBetween (desk_now L.state desk.old) }
    ensures goes { (seats : List History) (net : NetState) → IsPlaced (desk_now L.state desk.old) (Reading held) seats
        → Goes (desk_now L.state desk.old) (Reading held) seats net (desk_now L.state desk.new) result seats net }
    ensures left { (limits : Limits) (moment : ℕ) → LeavesBy limits moment (desk_now L.state desk.old) left_cause.Idle
        → CameLeaves limits moment (desk_now L.state desk.new) result }
    ensures moved { HasMoved result }
    ensures decides { (limits : Terms) (moment : ℕ) (net : NetState)
        → ClientComes limits moment (desk_now L.state desk.old) (Reading held) → own.status ≡ 408
        → CameDecides limits moment (desk_now L.state desk.old) (Reading held) net (desk_now L.state desk.new) result net }
{
    if desk.ask_from < desk.taken {
        let stage = answer(desk, own.status, held, own.now);
        Came::Moved(stage, own.waits, None)
    } else {
        leave(LeftCause::Idle, held)
    }
}

/// The client's deadline has come while a request waits for its exchange.
fn choose_late<L: Link>(desk: &mut Desk<L>, choosing: Choosing<L>, own: Own) -> Came<L>
    requires known { HasOwnText own.status }
    requires between { IsBetween (desk_now L.state desk.old) }
    ensures goes { (seats : List History) (net : NetState) → IsPlaced (desk_now L.state desk.old) (stage_of_choosing choosing) seats
        → Goes (desk_now L.state desk.old) (stage_of_choosing choosing) seats net (desk_now L.state desk.new) result seats net }
    ensures left { (limits : Limits) (moment : ℕ) → CameLeaves limits moment (desk_now L.state desk.new) result }
    ensures moved { HasMoved result }
    ensures decides { (limits : Terms) (moment : ℕ) (net : NetState)
        → HasCome limits.client desk.old.since.0 moment → own.status ≡ 408
        → CameDecides limits moment (desk_now L.state desk.old) (stage_of_choosing choosing) net (desk_now L.state desk.new) result net }
{
    let Choosing { held, .. } = choosing;
    let stage = answer(desk, own.status, held, own.now);
    Came::Moved(stage, own.waits, None)
}

/// The client's deadline has come.
fn meet_client_late<L: Link, S: Seat<Rested<L>>, N: Net<L = L>>(
    desk: &mut Desk<L>,
    stage: Stage<L>,
    seats: &mut [S],
    net: &mut N,
    own: Own,
) -> Came<L>
    requires known { HasOwnText own.status }
    requires placed { IsPlaced (desk_now L.state desk.old) (stage_now stage) (map S.history seats.old) }
    ensures rooms { RoomsStay S.history (room_of S.kept_from S.spare) seats.old seats.new }
    ensures goes { Goes (desk_now L.state desk.old) (stage_now stage) (map S.history seats.old) (N.state net.old)
        (desk_now L.state desk.new) result (map S.history seats.new) (N.state net.new) }
    ensures left { (limits : Limits) (moment : ℕ) → LeavesBy limits moment (desk_now L.state desk.old) left_cause.Idle
        → CameLeaves limits moment (desk_now L.state desk.new) result }
    ensures own { (status taken : ℕ) → OwnAt status taken (desk_now L.state desk.old) (stage_now stage)
        → CameOwn status taken (desk_now L.state desk.new) result }
    ensures still { StaysThere (desk_now L.state desk.old) (stage_now stage) (desk_now L.state desk.new) result }
    ensures decides { (limits : Terms) (moment : ℕ)
        → ClientComes limits moment (desk_now L.state desk.old) (stage_now stage) → own.status ≡ 408
        → CameDecides limits moment (desk_now L.state desk.old) (stage_now stage)
        (N.state net.old) (desk_now L.state desk.new) result (N.state net.new) }
{
    match stage {
        Stage::Exchanging(exchange) => cut_late(desk, exchange, seats, net, own),
        Stage::Reading(held) => read_late(desk, held, own),
        Stage::Choosing(choosing) => choose_late(desk, choosing, own),
        Stage::Answering(answering) => leave_answering(desk, answering, LeftCause::Idle),
        Stage::Left => Came::On(Stage::Left, own.waits),
    }
}

/// The own answer of a deadline.
fn own_of(late: Late, now: Millis) -> Own
    ensures known { HasOwnText result.status }
    ensures status { result.status ≡ status_for late }
{
    let status = match late {
        Late::Client => 408,
        Late::Connect => 503,
        Late::Server => 504,
    };
    Own {
        status,
        now,
        waits: Waiting::Nothing,
    }
}

/// A deadline of the server's side has come.
fn meet_server_late<L: Link, S: Seat<Rested<L>>, N: Net<L = L>>(
    desk: &mut Desk<L>,
    stage: Stage<L>,
    seats: &mut [S],
    net: &mut N,
    own: Own,
) -> Came<L>
    requires known { HasOwnText own.status }
    requires placed { IsPlaced (desk_now L.state desk.old) (stage_now stage) (map S.history seats.old) }
    ensures rooms { RoomsStay S.history (room_of S.kept_from S.spare) seats.old seats.new }
    ensures goes { Goes (desk_now L.state desk.old) (stage_now stage) (map S.history seats.old) (N.state net.old)
        (desk_now L.state desk.new) result (map S.history seats.new) (N.state net.new) }
    ensures left { (limits : Limits) (moment : ℕ) → CameLeaves limits moment (desk_now L.state desk.new) result }
    ensures own { (status taken : ℕ) → OwnAt status taken (desk_now L.state desk.old) (stage_now stage)
        → CameOwn status taken (desk_now L.state desk.new) result }
    ensures still { StaysThere (desk_now L.state desk.old) (stage_now stage) (desk_now L.state desk.new) result }
    ensures decides { (limits : Terms) (moment : ℕ)
        → ServerLate limits moment (desk_now L.state desk.old) own.status
        → CameDecides limits moment (desk_now L.state desk.old) (stage_now stage)
        (N.state net.old) (desk_now L.state desk.new) result (N.state net.new) }
{
    match stage {
        Stage::Exchanging(exchange) => end_by_server(
            desk,
            exchange,
            seats,
            net,
            (CutCause::Late, own),
        ),
        Stage::Reading(held) => Came::On(Stage::Reading(held), own.waits),
        Stage::Choosing(choosing) => Came::On(Stage::Choosing(choosing), own.waits),
        Stage::Answering(answering) => Came::On(Stage::Answering(answering), own.waits),
        Stage::Left => Came::On(Stage::Left, own.waits),
    }
}

/// The first part of a step: a deadline that has come.
fn meet_deadline<L: Link, S: Seat<Rested<L>>, N: Net<L = L>>(
    desk: &mut Desk<L>,
    stage: Stage<L>,
    seats: &mut [S],
    net: &mut N,
    scene: Scene<'_>,
) -> Came<L>
    requires placed { IsPlaced (desk_now L.state desk.old) (stage_now stage) (map S.history seats.old) }
    ensures rooms { RoomsStay S.history (room_of S.kept_from S.spare) seats.old seats.new }
    ensures goes { Goes (desk_now L.state desk.old) (stage_now stage) (map S.history seats.old) (N.state net.old)
        (desk_now L.state desk.new) result (map S.history seats.new) (N.state net.new) }
    ensures first { IsFresh (L.state desk.old.client) (desk_now L.state desk.old) (stage_now stage) → desk.old.number ≡ 1
        → FreshOn (L.state desk.old.client) (desk_now L.state desk.new) result
        ⊎ HasCome scene.entry.front.now.client desk.old.since.0 scene.entry.now.0 }
    ensures left { CameLeaves (limits_with (Some scene.entry.front.now) (Some scene.entry.back.now)) scene.entry.now.0
        (desk_now L.state desk.new) result }
    ensures own { (status taken : ℕ) → OwnAt status taken (desk_now L.state desk.old) (stage_now stage)
        → CameOwn status taken (desk_now L.state desk.new) result }
    ensures still { StaysThere (desk_now L.state desk.old) (stage_now stage) (desk_now L.state desk.new) result }
    ensures decides { (lack : Lack) → CameDecides (terms_of (limits_with (Some scene.entry.front.now) (Some scene.entry.back.now)) lack) scene.entry.now.0
        (desk_now L.state desk.old) (stage_now stage) (N.state net.old) (desk_now L.state desk.new) result (N.state net.new) }
{
    match find_late(desk, &stage, scene.front, scene.back, scene.now) {
        None => Came::On(stage, Waiting::Nothing),
        Some(Late::Client) => {
            let own = own_of(Late::Client, scene.now);
            meet_client_late(desk, stage, seats, net, own)
        }
        Some(late) => {
            let own = own_of(late, scene.now);
            meet_server_late(desk, stage, seats, net, own)
        }
    }
}

/// One write of the bytes that wait for the client.
fn give_some<L: Link, S: Seat<Rested<L>>, N: Net<L = L>>(
    desk: &mut Desk<L>,
    stage: Stage<L>,
    seats: &mut [S],
    net: &mut N,
    at: At,
) -> Came<L>
    requires placed { IsPlaced (desk_now L.state desk.old) (stage_now stage) (map S.history seats.old) }
    ensures rooms { RoomsStay S.history (room_of S.kept_from S.spare) seats.old seats.new }
    ensures goes { Goes (desk_now L.state desk.old) (stage_now stage) (map S.history seats.old) (N.state net.old)
        (desk_now L.state desk.new) result (map S.history seats.new) (N.state net.new) }
    ensures first { (l : LinkState) → IsFresh l (desk_now L.state desk.old) (stage_now stage) → FreshOn l (desk_now L.state desk.new) result }
    ensures left { (limits : Limits) (moment : ℕ) → CameLeaves limits moment (desk_now L.state desk.new) result }
    ensures own { (status taken : ℕ) → OwnAt status taken (desk_now L.state desk.old) (stage_now stage)
        → CameOwn status taken (desk_now L.state desk.new) result }
    ensures still { (d0 : DeskNow) (s0 : StageNow) → IsStill d0 s0 (desk_now L.state desk.old) (stage_now stage)
        → WhereOn result (λ s w. IsGiven d0 s0 (desk_now L.state desk.new) s at.now.0) }
    ensures decides { (limits : Terms) (moment : ℕ) → CameDecides limits moment (desk_now L.state desk.old) (stage_now stage)
        (N.state net.old) (desk_now L.state desk.new) result (N.state net.new) }
{
    match give(desk, at.now) {
        Move::Bytes => Came::Moved(stage, at.waits, None),
        Move::Ended => Came::Moved(stage, at.waits, None),
        Move::Failed => leave_or_cut(desk, stage, seats, net),
        Move::Idle => Came::On(stage, at.waits),
        Move::Waits => Came::On(stage, at.waits.or(Waiting::Client)),
    }
}

/// Bytes that wait are given to the client.
fn move_to_client<L: Link, S: Seat<Rested<L>>, N: Net<L = L>>(
    desk: &mut Desk<L>,
    came: Came<L>,
    seats: &mut [S],
    net: &mut N,
    now: Millis,
) -> Came<L>
    requires placed { CamePlaced (desk_now L.state desk.old) came (map S.history seats.old) }
    ensures rooms { RoomsStay S.history (room_of S.kept_from S.spare) seats.old seats.new }
    ensures placed { CamePlaced (desk_now L.state desk.new) result (map S.history seats.new) }
    ensures keeps { KeepsPlace (desk_now L.state desk.old) (desk_now L.state desk.new) (map S.history seats.old) (map S.history seats.new)
        (N.state net.old) (N.state net.new) }
    ensures touches { TouchesOn (desk_now L.state desk.old) came (map S.history seats.old) (N.state net.old)
        (desk_now L.state desk.new) result (map S.history seats.new) (N.state net.new) }
    ensures routed { (back : Back) → CameRouted back came → CameRouted back result }
    ensures picks { (c : Option Holding) (v : Option ServerNo) (hs : List History) → Picks c v hs came (map S.history seats.old)
        → Picks c v hs result (map S.history seats.new) }
    ensures told { (d0 : DeskNow) (s0 : StageNow) → CameTells d0 s0 (desk_now L.state desk.old) came
        → CameTells d0 s0 (desk_now L.state desk.new) result }
    ensures first { (l : LinkState) → FreshOn l (desk_now L.state desk.old) came → FreshOn l (desk_now L.state desk.new) result }
    ensures left { (limits : Limits) (moment : ℕ) → CameLeaves limits moment (desk_now L.state desk.old) came
        → CameLeaves limits moment (desk_now L.state desk.new) result }
    ensures own { (status taken : ℕ) → CameOwn status taken (desk_now L.state desk.old) came
        → CameOwn status taken (desk_now L.state desk.new) result }
    ensures still { (d0 : DeskNow) (s0 : StageNow)
        → WhereOn came (λ s w. IsStill d0 s0 (desk_now L.state desk.old) s)
        → WhereOn result (λ s w. IsGiven d0 s0 (desk_now L.state desk.new) s now.0) }
    ensures decides { (limits : Terms) (moment : ℕ) (d0 : DeskNow) (s0 : StageNow) (net0 : NetState)
        → CameDecides limits moment d0 s0 net0 (desk_now L.state desk.old) came (N.state net.old)
        → CameDecides limits moment d0 s0 net0 (desk_now L.state desk.new) result (N.state net.new) }
{
    let Came::On(stage, waits) = came else {
        return came;
    };
    give_some(desk, stage, seats, net, At { now, waits })
}

/// What a call of the server's link leads to.
fn after_server_move<L: Link, S: Seat<Rested<L>>, N: Net<L = L>>(
    desk: &mut Desk<L>,
    exchange: Exchange<L>,
    seats: &mut [S],
    net: &mut N,
    call: (Move, At),
) -> Came<L>
    requires good { (call.0 ≡ Failed → ⊥) → exchange.busy.exchange.failed ≡ false }
    requires failed { call.0 ≡ Failed → exchange.busy.exchange.failed ≡ true }
    requires set { IsSet (desk_now L.state desk.old) (Exchanging (exchange_now exchange)) (map S.history seats.old) }
    ensures rooms { RoomsStay S.history (room_of S.kept_from S.spare) seats.old seats.new }
    ensures goes { Goes (desk_now L.state desk.old) (Exchanging (exchange_now exchange)) (map S.history seats.old) (N.state net.old)
        (desk_now L.state desk.new) result (map S.history seats.new) (N.state net.new) }
    ensures told { (d : DeskNow) (e : ExchangeNow) → MoveTells call.0 d e (desk_now L.state desk.old) (exchange_now exchange)
        → CameTells d (Exchanging e) (desk_now L.state desk.new) result }
    ensures keeps { (d : DeskNow) (e : ExchangeNow) → MoveTells call.0 d e (desk_now L.state desk.old) (exchange_now exchange)
        → CameKeeps result e.busy exchange.busy }
    ensures still { WhereOn result (λ s w. (desk_now L.state desk.new ≡ desk_now L.state desk.old)
        × (s ≡ Exchanging (exchange_now exchange)) × IsNone call.0) }
    ensures decides { (limits : Terms) (moment : ℕ) (d : DeskNow) (e : ExchangeNow)
        → (IsQuiet call.0 → IsSoFar d (Exchanging e) (N.state net.old) (desk_now L.state desk.old) (Exchanging (exchange_now exchange)) (N.state net.old))
        → CameDecides limits moment d (Exchanging e) (N.state net.old) (desk_now L.state desk.new) result (N.state net.new) }
{
    let (moved, at) = call;
    match moved {
        Move::Bytes => Came::Moved(Stage::Exchanging(exchange), at.waits, None),
        Move::Ended => Came::Moved(Stage::Exchanging(exchange), at.waits, None),
        Move::Failed => {
            let own = Own {
                status: 502,
                now: at.now,
                waits: at.waits,
            };
            lose_server(desk, exchange, seats, net, (CutCause::Fault, own))
        }
        Move::Idle => Came::On(Stage::Exchanging(exchange), at.waits),
        Move::Waits => Came::On(Stage::Exchanging(exchange), at.waits.or(Waiting::Server)),
    }
}

/// One write of the bytes that wait for the server.
fn send_some<L: Link, S: Seat<Rested<L>>, N: Net<L = L>>(
    desk: &mut Desk<L>,
    mut exchange: Exchange<L>,
    seats: &mut [S],
    net: &mut N,
    at: At,
) -> Came<L>
    requires placed { IsPlaced (desk_now L.state desk.old) (Exchanging (exchange_now exchange)) (map S.history seats.old) }
    ensures rooms { RoomsStay S.history (room_of S.kept_from S.spare) seats.old seats.new }
    ensures goes { Goes (desk_now L.state desk.old) (Exchanging (exchange_now exchange)) (map S.history seats.old) (N.state net.old)
        (desk_now L.state desk.new) result (map S.history seats.new) (N.state net.new) }
    ensures still { (d0 : DeskNow) (s0 : StageNow)
        → IsGiven d0 s0 (desk_now L.state desk.old) (Exchanging (exchange_now exchange)) at.now.0
        → WhereOn result (λ s w. IsPaused d0 s0 (desk_now L.state desk.new) s at.now.0) }
    ensures decides { (limits : Terms) (moment : ℕ)
        → CameDecides limits moment (desk_now L.state desk.old) (Exchanging (exchange_now exchange)) (N.state net.old) (desk_now L.state desk.new) result (N.state net.new) }
{
    let sent = send(desk, &mut exchange, at.now);
    after_server_move(desk, exchange, seats, net, (sent, at))
}

/// Bytes that wait are sent to the server.
fn move_to_server<L: Link, S: Seat<Rested<L>>, N: Net<L = L>>(
    desk: &mut Desk<L>,
    came: Came<L>,
    seats: &mut [S],
    net: &mut N,
    now: Millis,
) -> Came<L>
    requires placed { CamePlaced (desk_now L.state desk.old) came (map S.history seats.old) }
    ensures rooms { RoomsStay S.history (room_of S.kept_from S.spare) seats.old seats.new }
    ensures placed { CamePlaced (desk_now L.state desk.new) result (map S.history seats.new) }
    ensures keeps { KeepsPlace (desk_now L.state desk.old) (desk_now L.state desk.new) (map S.history seats.old) (map S.history seats.new)
        (N.state net.old) (N.state net.new) }
    ensures touches { TouchesOn (desk_now L.state desk.old) came (map S.history seats.old) (N.state net.old)
        (desk_now L.state desk.new) result (map S.history seats.new) (N.state net.new) }
    ensures routed { (back : Back) → CameRouted back came → CameRouted back result }
    ensures picks { (c : Option Holding) (v : Option ServerNo) (hs : List History) → Picks c v hs came (map S.history seats.old)
        → Picks c v hs result (map S.history seats.new) }
    ensures told { (d0 : DeskNow) (s0 : StageNow) → CameTells d0 s0 (desk_now L.state desk.old) came
        → CameTells d0 s0 (desk_now L.state desk.new) result }
    ensures first { (l : LinkState) → FreshOn l (desk_now L.state desk.old) came → FreshOn l (desk_now L.state desk.new) result }
    ensures left { (limits : Limits) (moment : ℕ) → CameLeaves limits moment (desk_now L.state desk.old) came
        → CameLeaves limits moment (desk_now L.state desk.new) result }
    ensures own { (status taken : ℕ) → CameOwn status taken (desk_now L.state desk.old) came
        → CameOwn status taken (desk_now L.state desk.new) result }
    ensures still { (d0 : DeskNow) (s0 : StageNow)
        → WhereOn came (λ s w. IsGiven d0 s0 (desk_now L.state desk.old) s now.0)
        → WhereOn result (λ s w. IsPaused d0 s0 (desk_now L.state desk.new) s now.0) }
    ensures decides { (limits : Terms) (moment : ℕ) (d0 : DeskNow) (s0 : StageNow) (net0 : NetState)
        → CameDecides limits moment d0 s0 net0 (desk_now L.state desk.old) came (N.state net.old)
        → CameDecides limits moment d0 s0 net0 (desk_now L.state desk.new) result (N.state net.new) }
{
    let Came::On(stage, waits) = came else {
        return came;
    };
    let Stage::Exchanging(exchange) = stage else {
        return Came::On(stage, waits);
    };
    send_some(desk, exchange, seats, net, At { now, waits })
}

/// A server is chosen for the request, where none is chosen yet.
fn take_turn<L: Link, S: Seat<Rested<L>>>(
    came: Came<L>,
    seats: &mut [S],
    turn: &mut u16,
    back: &Back,
) -> Came<L>
    requires few { length back.now.servers ≤ 32 }
    requires turn { turn.old < length back.now.servers }
    requires seats { HaveSeats back.now.servers (length seats.old) }
    ensures rooms { RoomsStay S.history (room_of S.kept_from S.spare) seats.old seats.new }
    ensures placed { (d : DeskNow) → CamePlaced d came (map S.history seats.old) → CamePlaced d result (map S.history seats.new) }
    ensures asks { (d : DeskNow) (k : Option Holding) (v : Option ServerNo) (hs : List History) → CamePlaced d came (map S.history seats.old)
        → Picks k v hs came (map S.history seats.old) → CameAsks back.now.servers turn.old result hs (map S.history seats.new) }
    ensures about { abouts (map S.history seats.new) ≡ abouts (map S.history seats.old) }
    ensures touches { (d : DeskNow) (net : NetState) → TouchesOn d came (map S.history seats.old) net d result (map S.history seats.new) net }
    ensures routed { CameRouted back.now came → CameRouted back.now result }
    ensures turn { turn.new < length back.now.servers }
    ensures picks { (d : DeskNow) (s0 : StageNow) (hs : List History) → CamePlaced d came (map S.history seats.old)
        → Picks (conn_seen s0) (chosen_seen s0) hs came (map S.history seats.old)
        → PicksSo back.now.servers turn.old turn.new s0 hs result (map S.history seats.new) }
    ensures told { (d0 d : DeskNow) (s0 : StageNow) → CameTells d0 s0 d came → CameTells d0 s0 d result }
    ensures first { (l : LinkState) (d : DeskNow) → FreshOn l d came → FreshOn l d result }
    ensures left { (limits : Limits) (moment : ℕ) (d : DeskNow) → CameLeaves limits moment d came → CameLeaves limits moment d result }
    ensures own { (status taken : ℕ) (d : DeskNow) → CameOwn status taken d came → CameOwn status taken d result }
    ensures still { (d0 d : DeskNow) (s0 : StageNow) (moment : ℕ) → WhereOn came (λ s w. IsPaused d0 s0 d s moment)
        → WhereOn result (λ s w. PausedOrChosen d0 s0 d s moment) }
    ensures decides { (limits : Terms) (moment : ℕ) (d0 d : DeskNow) (s0 : StageNow) (net0 net : NetState)
        → CameDecides limits moment d0 s0 net0 d came net → CameDecides limits moment d0 s0 net0 d result net }
{
    let Came::On(stage, waits) = came else {
        return came;
    };
    Came::On(choose_server(stage, seats, turn, back), waits)
}

/// An own answer that was given whole ends the session.
fn end_answering<L: Link>(desk: &mut Desk<L>, answering: Answering<L>, waits: Waiting) -> Came<L>
    requires stands { StandsSo (desk_now L.state desk.old) (stage_of_answering answering) }
    requires counted { IsCounted (desk_now L.state desk.old) }
    ensures goes { (seats : List History) (net : NetState) → IsPlaced (desk_now L.state desk.old) (stage_of_answering answering) seats
        → Goes (desk_now L.state desk.old) (stage_of_answering answering) seats net (desk_now L.state desk.new) result seats net }
    ensures left { (limits : Limits) (moment : ℕ) → CameLeaves limits moment (desk_now L.state desk.new) result }
    ensures own { CameOwn answering.status (L.state desk.old.client).taken_count (desk_now L.state desk.new) result }
    ensures still { LeavesNothing (desk_now L.state desk.old) (stage_of_answering answering) (desk_now L.state desk.new) result }
    ensures decides { (limits : Terms) (moment : ℕ) (net : NetState)
        → CameDecides limits moment (desk_now L.state desk.old) (stage_of_answering answering) net (desk_now L.state desk.new) result net }
{
    if desk.to.len() > 0 {
        return Came::On(Stage::Answering(answering), waits);
    }
    leave_answering(desk, answering, LeftCause::Own)
}

/// What the session's stage has to do.
fn do_stage<L: Link, S: Seat<Rested<L>>, N: Net<L = L>>(
    desk: &mut Desk<L>,
    stage: Stage<L>,
    seats: &mut [S],
    net: &mut N,
    scene: Scene<'_>,
) -> Came<L>
    requires seats { HaveSeats scene.back.now.servers (length seats.old) }
    requires servers { length seats.old ≡ length (all_servers scene.config.now.backs) }
    requires routed { IsRoutedTo scene.back.now (stage_now stage) }
    requires loop_ { (N.state net.old).loop_no ≡ desk.old.worker.0 }
    requires placed { IsPlaced (desk_now L.state desk.old) (stage_now stage) (map S.history seats.old) }
    ensures rooms { RoomsStay S.history (room_of S.kept_from S.spare) seats.old seats.new }
    ensures goes { Goes (desk_now L.state desk.old) (stage_now stage) (map S.history seats.old) (N.state net.old)
        (desk_now L.state desk.new) result (map S.history seats.new) (N.state net.new) }
    ensures first { (l : LinkState) → IsFresh l (desk_now L.state desk.old) (stage_now stage) → FreshOn l (desk_now L.state desk.new) result }
    ensures left { (limits : Limits) (moment : ℕ) → CameLeaves limits moment (desk_now L.state desk.new) result }
    ensures own { (status taken : ℕ) → OwnAt status taken (desk_now L.state desk.old) (stage_now stage)
        → CameOwn status taken (desk_now L.state desk.new) result }
    ensures still { (d0 : DeskNow) (s0 : StageNow) (moment : ℕ)
        → PausedOrChosen d0 s0 (desk_now L.state desk.old) (stage_now stage) moment
        → WhereOn result (λ s w. IsIdle d0 s0 (desk_now L.state desk.new) s moment) }
    ensures out { waits_out (stage_now stage) ≡ true → IsMoved result }
    ensures decides { (limits : Terms) (moment : ℕ)
        → (OutOf desk.old.session (stage_now stage) (map S.history seats.old) (map S.history seats.new) (N.state net.old) (N.state net.new)
        → (u : Unserved) × HasLack limits.lack u)
        → CameDecides limits moment (desk_now L.state desk.old) (stage_now stage)
        (N.state net.old) (desk_now L.state desk.new) result (N.state net.new) }
{
    match stage {
        Stage::Reading(held) => read_head(desk, held, scene.now, scene.waits),
        Stage::Choosing(choosing) => {
            let stage = go_out(desk, choosing, seats, net, scene);
            Came::Moved(stage, scene.waits, None)
        }
        Stage::Exchanging(exchange) => {
            let at = At {
                now: scene.now,
                waits: scene.waits,
            };
            go_on(desk, exchange, seats, net, at)
        }
        Stage::Answering(answering) => end_answering(desk, answering, scene.waits),
        Stage::Left => Came::On(Stage::Left, scene.waits),
    }
}

/// The phase of a step.
fn do_phase<L: Link, S: Seat<Rested<L>>, N: Net<L = L>>(
    desk: &mut Desk<L>,
    came: Came<L>,
    seats: &mut [S],
    net: &mut N,
    scene: Scene<'_>,
) -> Came<L>
    requires seats { HaveSeats scene.back.now.servers (length seats.old) }
    requires servers { length seats.old ≡ length (all_servers scene.config.now.backs) }
    requires routed { CameRouted scene.back.now came }
    requires loop_ { (N.state net.old).loop_no ≡ desk.old.worker.0 }
    requires placed { CamePlaced (desk_now L.state desk.old) came (map S.history seats.old) }
    ensures rooms { RoomsStay S.history (room_of S.kept_from S.spare) seats.old seats.new }
    ensures placed { CamePlaced (desk_now L.state desk.new) result (map S.history seats.new) }
    ensures keeps { KeepsPlace (desk_now L.state desk.old) (desk_now L.state desk.new) (map S.history seats.old) (map S.history seats.new)
        (N.state net.old) (N.state net.new) }
    ensures touches { TouchesOn (desk_now L.state desk.old) came (map S.history seats.old) (N.state net.old)
        (desk_now L.state desk.new) result (map S.history seats.new) (N.state net.new) }
    ensures routed { (back : Back) → CameRouted back came → CameRouted back result }
    ensures picks { (c : Option Holding) (v : Option ServerNo) (hs : List History) → Picks c v hs came (map S.history seats.old)
        → Picks c v hs result (map S.history seats.new) }
    ensures told { (d0 : DeskNow) (s0 : StageNow) → CameTells d0 s0 (desk_now L.state desk.old) came
        → CameTells d0 s0 (desk_now L.state desk.new) result }
    ensures first { (l : LinkState) → FreshOn l (desk_now L.state desk.old) came → FreshOn l (desk_now L.state desk.new) result }
    ensures left { (limits : Limits) (moment : ℕ) → CameLeaves limits moment (desk_now L.state desk.old) came
        → CameLeaves limits moment (desk_now L.state desk.new) result }
    ensures own { (status taken : ℕ) → CameOwn status taken (desk_now L.state desk.old) came
        → CameOwn status taken (desk_now L.state desk.new) result }
    ensures still { (d0 : DeskNow) (s0 : StageNow) (moment : ℕ)
        → WhereOn came (λ s w. PausedOrChosen d0 s0 (desk_now L.state desk.old) s moment)
        → WhereOn result (λ s w. IsIdle d0 s0 (desk_now L.state desk.new) s moment) }
    ensures out { came_out came ≡ true → IsMoved result }
    ensures decides { (limits : Terms) (moment : ℕ) (d0 : DeskNow) (s0 : StageNow) (net0 : NetState)
        → CameDecides limits moment d0 s0 net0 (desk_now L.state desk.old) came (N.state net.old)
        → (CameOut desk.old.session came (map S.history seats.old) (map S.history seats.new) (N.state net.old) (N.state net.new)
        → (u : Unserved) × HasLack limits.lack u)
        → CameDecides limits moment d0 s0 net0 (desk_now L.state desk.new) result (N.state net.new) }
{
    let Came::On(stage, waits) = came else {
        return came;
    };
    let scene = Scene {
        config: scene.config,
        front: scene.front,
        back: scene.back,
        now: scene.now,
        waits,
    };
    do_stage(desk, stage, seats, net, scene)
}

fn reads_client<L: Link>(stage: &Stage<L>) -> bool
    ensures { IsTrue result ↔ WantsClient (stage_now stage.now) }
{
    match stage {
        Stage::Reading(_) => true,
        Stage::Exchanging(exchange) => matches!(exchange.ask.state, MeterState::Going),
        Stage::Choosing(_) | Stage::Answering(_) | Stage::Left => false,
    }
}

/// One read of the client.
fn take_some<L: Link, S: Seat<Rested<L>>, N: Net<L = L>>(
    desk: &mut Desk<L>,
    stage: Stage<L>,
    seats: &mut [S],
    net: &mut N,
    at: At,
) -> Came<L>
    requires wants { WantsClient (stage_now stage) }
    requires placed { IsPlaced (desk_now L.state desk.old) (stage_now stage) (map S.history seats.old) }
    ensures rooms { RoomsStay S.history (room_of S.kept_from S.spare) seats.old seats.new }
    ensures goes { Goes (desk_now L.state desk.old) (stage_now stage) (map S.history seats.old) (N.state net.old)
        (desk_now L.state desk.new) result (map S.history seats.new) (N.state net.new) }
    ensures first { (l : LinkState) → IsFresh l (desk_now L.state desk.old) (stage_now stage) → ReadOn l (desk_now L.state desk.new) result }
    ensures left { (limits : Limits) (moment : ℕ) → CameLeaves limits moment (desk_now L.state desk.new) result }
    ensures still { (d0 : DeskNow) (s0 : StageNow) → IsIdle d0 s0 (desk_now L.state desk.old) (stage_now stage) at.now.0
        → WhereOn result (λ s w. IsUnread d0 s0 (desk_now L.state desk.new) s at.now.0) }
    ensures decides { (limits : Terms) (moment : ℕ) → CameDecides limits moment (desk_now L.state desk.old) (stage_now stage)
        (N.state net.old) (desk_now L.state desk.new) result (N.state net.new) }
{
    match read_client(desk, at.now) {
        Move::Bytes => Came::Moved(stage, at.waits, None),
        Move::Ended => Came::Moved(stage, at.waits, None),
        Move::Failed => leave_or_cut(desk, stage, seats, net),
        Move::Idle => Came::On(stage, at.waits),
        Move::Waits => Came::On(stage, at.waits.or(Waiting::Client)),
    }
}

/// The client is read, where more of a request is wanted.
fn move_from_client<L: Link, S: Seat<Rested<L>>, N: Net<L = L>>(
    desk: &mut Desk<L>,
    came: Came<L>,
    seats: &mut [S],
    net: &mut N,
    now: Millis,
) -> Came<L>
    requires placed { CamePlaced (desk_now L.state desk.old) came (map S.history seats.old) }
    ensures rooms { RoomsStay S.history (room_of S.kept_from S.spare) seats.old seats.new }
    ensures placed { CamePlaced (desk_now L.state desk.new) result (map S.history seats.new) }
    ensures keeps { KeepsPlace (desk_now L.state desk.old) (desk_now L.state desk.new) (map S.history seats.old) (map S.history seats.new)
        (N.state net.old) (N.state net.new) }
    ensures touches { TouchesOn (desk_now L.state desk.old) came (map S.history seats.old) (N.state net.old)
        (desk_now L.state desk.new) result (map S.history seats.new) (N.state net.new) }
    ensures routed { (back : Back) → CameRouted back came → CameRouted back result }
    ensures picks { (c : Option Holding) (v : Option ServerNo) (hs : List History) → Picks c v hs came (map S.history seats.old)
        → Picks c v hs result (map S.history seats.new) }
    ensures told { (d0 : DeskNow) (s0 : StageNow) → CameTells d0 s0 (desk_now L.state desk.old) came
        → CameTells d0 s0 (desk_now L.state desk.new) result }
    ensures first { (l : LinkState) → FreshOn l (desk_now L.state desk.old) came → ReadOn l (desk_now L.state desk.new) result }
    ensures left { (limits : Limits) (moment : ℕ) → CameLeaves limits moment (desk_now L.state desk.old) came
        → CameLeaves limits moment (desk_now L.state desk.new) result }
    ensures own { (status taken : ℕ) → CameOwn status taken (desk_now L.state desk.old) came
        → CameOwn status taken (desk_now L.state desk.new) result }
    ensures still { (d0 : DeskNow) (s0 : StageNow)
        → WhereOn came (λ s w. IsIdle d0 s0 (desk_now L.state desk.old) s now.0)
        → WhereOn result (λ s w. IsUnread d0 s0 (desk_now L.state desk.new) s now.0) }
    ensures stays { IsMoved came → (result ≡ came) × (map S.history seats.new ≡ map S.history seats.old) × (N.state net.new ≡ N.state net.old) }
    ensures decides { (limits : Terms) (moment : ℕ) (d0 : DeskNow) (s0 : StageNow) (net0 : NetState)
        → CameDecides limits moment d0 s0 net0 (desk_now L.state desk.old) came (N.state net.old)
        → CameDecides limits moment d0 s0 net0 (desk_now L.state desk.new) result (N.state net.new) }
{
    let Came::On(stage, waits) = came else {
        return came;
    };
    if !reads_client(&stage) {
        return Came::On(stage, waits);
    }
    take_some(desk, stage, seats, net, At { now, waits })
}

/// One read of the server.
fn read_some<L: Link, S: Seat<Rested<L>>, N: Net<L = L>>(
    desk: &mut Desk<L>,
    mut exchange: Exchange<L>,
    seats: &mut [S],
    net: &mut N,
    at: At,
) -> Came<L>
    requires placed { IsPlaced (desk_now L.state desk.old) (Exchanging (exchange_now exchange)) (map S.history seats.old) }
    ensures rooms { RoomsStay S.history (room_of S.kept_from S.spare) seats.old seats.new }
    ensures goes { Goes (desk_now L.state desk.old) (Exchanging (exchange_now exchange)) (map S.history seats.old) (N.state net.old)
        (desk_now L.state desk.new) result (map S.history seats.new) (N.state net.new) }
    ensures still { (d0 : DeskNow) (s0 : StageNow)
        → IsUnread d0 s0 (desk_now L.state desk.old) (Exchanging (exchange_now exchange)) at.now.0
        → WhereOn result (λ s w. StandsStill d0 s0 (desk_now L.state desk.new) s at.now.0) }
    ensures decides { (limits : Terms) (moment : ℕ)
        → CameDecides limits moment (desk_now L.state desk.old) (Exchanging (exchange_now exchange)) (N.state net.old) (desk_now L.state desk.new) result (N.state net.new) }
{
    let read = read_server(desk, &mut exchange, at.now);
    after_server_move(desk, exchange, seats, net, (read, at))
}

/// The server is read.
fn move_from_server<L: Link, S: Seat<Rested<L>>, N: Net<L = L>>(
    desk: &mut Desk<L>,
    came: Came<L>,
    seats: &mut [S],
    net: &mut N,
    now: Millis,
) -> Came<L>
    requires placed { CamePlaced (desk_now L.state desk.old) came (map S.history seats.old) }
    ensures rooms { RoomsStay S.history (room_of S.kept_from S.spare) seats.old seats.new }
    ensures placed { CamePlaced (desk_now L.state desk.new) result (map S.history seats.new) }
    ensures keeps { KeepsPlace (desk_now L.state desk.old) (desk_now L.state desk.new) (map S.history seats.old) (map S.history seats.new)
        (N.state net.old) (N.state net.new) }
    ensures touches { TouchesOn (desk_now L.state desk.old) came (map S.history seats.old) (N.state net.old)
        (desk_now L.state desk.new) result (map S.history seats.new) (N.state net.new) }
    ensures routed { (back : Back) → CameRouted back came → CameRouted back result }
    ensures picks { (c : Option Holding) (v : Option ServerNo) (hs : List History) → Picks c v hs came (map S.history seats.old)
        → Picks c v hs result (map S.history seats.new) }
    ensures told { (d0 : DeskNow) (s0 : StageNow) → CameTells d0 s0 (desk_now L.state desk.old) came
        → CameTells d0 s0 (desk_now L.state desk.new) result }
    ensures first { (l : LinkState) → ReadOn l (desk_now L.state desk.old) came → WasRead l (L.state desk.new.client) }
    ensures left { (limits : Limits) (moment : ℕ) → CameLeaves limits moment (desk_now L.state desk.old) came
        → CameLeaves limits moment (desk_now L.state desk.new) result }
    ensures own { (status taken : ℕ) → CameOwn status taken (desk_now L.state desk.old) came
        → CameOwn status taken (desk_now L.state desk.new) result }
    ensures still { (d0 : DeskNow) (s0 : StageNow)
        → WhereOn came (λ s w. IsUnread d0 s0 (desk_now L.state desk.old) s now.0)
        → WhereOn result (λ s w. StandsStill d0 s0 (desk_now L.state desk.new) s now.0) }
    ensures stays { IsMoved came → (result ≡ came) × (map S.history seats.new ≡ map S.history seats.old) × (N.state net.new ≡ N.state net.old) }
    ensures decides { (limits : Terms) (moment : ℕ) (d0 : DeskNow) (s0 : StageNow) (net0 : NetState)
        → CameDecides limits moment d0 s0 net0 (desk_now L.state desk.old) came (N.state net.old)
        → CameDecides limits moment d0 s0 net0 (desk_now L.state desk.new) result (N.state net.new) }
{
    let Came::On(stage, waits) = came else {
        return came;
    };
    let Stage::Exchanging(exchange) = stage else {
        return Came::On(stage, waits);
    };
    read_some(desk, exchange, seats, net, At { now, waits })
}

/// What a session that leaves holds is closed, and its client's link is attached to no loop.
pub(crate) fn let_go<L: Link, S: Seat<Rested<L>>, N: Net<L = L>>(
    desk: &mut Desk<L>,
    held: Option<Rested<L>>,
    seats: &mut [S],
    net: &mut N,
)
    requires leaving { IsLeaving (desk_now L.state desk.old) held (map S.history seats.old) }
    ensures rooms { RoomsStay S.history (room_of S.kept_from S.spare) seats.old seats.new }
    ensures gone { IsGone (desk_now L.state desk.new) (map S.history seats.new) }
    ensures client { L.state desk.new.client ≡ record (L.state desk.old.client) { on_loop = None } }
    ensures desk { desk_now L.state desk.new ≡ with_client (desk_now L.state desk.old) (L.state desk.new.client) }
    ensures closes { LetsGo desk.old.session held (map S.history seats.old) (map S.history seats.new)
        (N.state net.old) (N.state net.new) (L.state desk.old.client) (L.state desk.new.client) }
    ensures keeps { KeepsOver (desk_now L.state desk.old) (desk_now L.state desk.new) (map S.history seats.old) (map S.history seats.new)
        (N.state net.old) (N.state net.new) }
{
    close_any(seats, net, desk.session, held);
    net.detach(&mut desk.client);
}

/// The session leaves.
fn give_left<L: Link, S: Seat<Rested<L>>, N: Net<L = L>>(
    desk: &mut Desk<L>,
    ending: Ending<L>,
    seats: &mut [S],
    net: &mut N,
) -> Done<L>
    requires leaving { IsLeaving (desk_now L.state desk.old) ending.held (map S.history seats.old) }
    ensures rooms { RoomsStay S.history (room_of S.kept_from S.spare) seats.old seats.new }
    ensures stage { stage_now result.stage ≡ Gone }
    ensures touches { TouchesAll (desk_now L.state desk.old) (Ends ending) (map S.history seats.old) (N.state net.old)
        (stage_now result.stage) result.served (map S.history seats.new) (N.state net.new) }
    ensures done { IsDone (desk_now L.state desk.new) (stage_now result.stage) (map S.history seats.new) result.waits result.left }
    ensures keeps { KeepsOver (desk_now L.state desk.old) (desk_now L.state desk.new) (map S.history seats.old) (map S.history seats.new)
        (N.state net.old) (N.state net.new) }
    ensures seats { ending.held ≡ None → map S.history seats.new ≡ map S.history seats.old }
    ensures told { (d0 : DeskNow) (s0 : StageNow) → TellsEnd s0 d0 (desk_now L.state desk.old) ending.served ending.cause
        → DoneTells d0 s0 (desk_now L.state desk.new) (stage_now result.stage) result.served result.left }
    ensures client { L.state desk.new.client ≡ record (L.state desk.old.client) { on_loop = None } }
    ensures left { (limits : Limits) (moment : ℕ) → LeavesBy limits moment (desk_now L.state desk.old) ending.cause
        → IfSome result.left (λ l. LeavesBy limits moment (desk_now L.state desk.new) l.cause) }
    ensures own { (status taken : ℕ) → CameOwn status taken (desk_now L.state desk.old) (Ends ending)
        → DoneOwn status taken (desk_now L.state desk.new) (stage_now result.stage) result.served }
    ensures moved { result.moved ≡ true }
    ensures decides { (limits : Terms) (moment : ℕ) (d0 : DeskNow) (s0 : StageNow) (net0 : NetState)
        → CameDecides limits moment d0 s0 net0 (desk_now L.state desk.old) (Ends ending) (N.state net.old)
        → DoneDecides limits moment d0 s0 net0 (desk_now L.state desk.new) (stage_now result.stage) (N.state net.new) result.served }
{
    let Ending {
        cause,
        held,
        served,
    } = ending;
    let_go(desk, held, seats, net);
    let left = Some(desk.leave(cause));
    Done {
        stage: Stage::Left,
        moved: true,
        waits: Waits::Ended,
        served,
        left,
    }
}

/// The step is over.
fn conclude<L: Link, S: Seat<Rested<L>>, N: Net<L = L>>(
    desk: &mut Desk<L>,
    came: Came<L>,
    seats: &mut [S],
    net: &mut N,
) -> Done<L>
    requires placed { CamePlaced (desk_now L.state desk.old) came (map S.history seats.old) }
    ensures rooms { RoomsStay S.history (room_of S.kept_from S.spare) seats.old seats.new }
    ensures done { IsDone (desk_now L.state desk.new) (stage_now result.stage) (map S.history seats.new) result.waits result.left }
    ensures touches { TouchesAll (desk_now L.state desk.old) came (map S.history seats.old) (N.state net.old)
        (stage_now result.stage) result.served (map S.history seats.new) (N.state net.new) }
    ensures keeps { KeepsOver (desk_now L.state desk.old) (desk_now L.state desk.new) (map S.history seats.old) (map S.history seats.new)
        (N.state net.old) (N.state net.new) }
    ensures routed { (back : Back) → CameRouted back came → IsRoutedTo back (stage_now result.stage) }
    ensures picks { (c : Option Holding) (v : Option ServerNo) (hs : List History) → Picks c v hs came (map S.history seats.old)
        → PicksTo c v hs (stage_now result.stage) (map S.history seats.new) }
    ensures told { (d0 : DeskNow) (s0 : StageNow) → CameTells d0 s0 (desk_now L.state desk.old) came
        → DoneTells d0 s0 (desk_now L.state desk.new) (stage_now result.stage) result.served result.left }
    ensures first { (l : LinkState) → WasRead l (L.state desk.old.client) → WasRead l (L.state desk.new.client) }
    ensures left { (limits : Limits) (moment : ℕ) → CameLeaves limits moment (desk_now L.state desk.old) came
        → IfSome result.left (λ l. LeavesBy limits moment (desk_now L.state desk.new) l.cause) }
    ensures own { (status taken : ℕ) → CameOwn status taken (desk_now L.state desk.old) came
        → DoneOwn status taken (desk_now L.state desk.new) (stage_now result.stage) result.served }
    ensures still { (d0 : DeskNow) (s0 : StageNow) (moment : ℕ)
        → WhereOn came (λ s w. StandsStill d0 s0 (desk_now L.state desk.old) s moment)
        → result.moved ≡ false → StandsStill d0 s0 (desk_now L.state desk.new) (stage_now result.stage) moment }
    ensures stays { IsMoved came → (map S.history seats.new ≡ map S.history seats.old) × (N.state net.new ≡ N.state net.old) }
    ensures decides { (limits : Terms) (moment : ℕ) (d0 : DeskNow) (s0 : StageNow) (net0 : NetState)
        → CameDecides limits moment d0 s0 net0 (desk_now L.state desk.old) came (N.state net.old)
        → DoneDecides limits moment d0 s0 net0 (desk_now L.state desk.new) (stage_now result.stage) (N.state net.new) result.served }
{
    match came {
        Came::On(stage, waits) => Done {
            stage,
            moved: false,
            waits: waits.tell(),
            served: None,
            left: None,
        },
        Came::Moved(stage, waits, served) => Done {
            stage,
            moved: true,
            waits: waits.tell(),
            served,
            left: None,
        },
        Came::Ends(ending) => give_left(desk, ending, seats, net),
    }
}

/// One step of a session that hasn't given its Left: the first thing that applies.
pub(crate) fn advance<L: Link, S: Seat<Rested<L>>, N: Net<L = L>>(
    desk: &mut Desk<L>,
    stage: Stage<L>,
    seats: &mut [S],
    turn: &mut u16,
    net: &mut N,
    scene: Scene<'_>,
) -> Done<L>
    requires few { length scene.back.now.servers ≤ 32 }
    requires turn { turn.old < length scene.back.now.servers }
    requires seats { HaveSeats scene.back.now.servers (length seats.old) }
    requires servers { length seats.old ≡ length (all_servers scene.config.now.backs) }
    requires placed { IsPlaced (desk_now L.state desk.old) (stage_now stage) (map S.history seats.old) }
    requires routed { IsRoutedTo scene.back.now (stage_now stage) }
    requires loop_ { (N.state net.old).loop_no ≡ desk.old.worker.0 }
    ensures rooms { RoomsStay S.history (room_of S.kept_from S.spare) seats.old seats.new }
    ensures done { IsDone (desk_now L.state desk.new) (stage_now result.stage) (map S.history seats.new) result.waits result.left }
    ensures touches { SomeWay desk.old.worker desk.old.session (first_of (desk_now L.state desk.old))
        (conn_seen (stage_now stage)) (conn_seen (stage_now result.stage)) (outcome_of (stage_now result.stage))
        (map S.history seats.old) (map S.history seats.new) (N.state net.old) (N.state net.new) result.served }
    ensures keeps { KeepsOver (desk_now L.state desk.old) (desk_now L.state desk.new) (map S.history seats.old) (map S.history seats.new)
        (N.state net.old) (N.state net.new) }
    ensures routed { IsRoutedTo scene.entry.back.now (stage_now result.stage) }
    ensures turn { turn.new < length scene.entry.back.now.servers }
    ensures picks { PicksAll scene.entry.back.now.servers turn.old turn.new (stage_now stage) (map S.history seats.old)
        (stage_now result.stage) (map S.history seats.new) }
    ensures told { DoneTells (desk_now L.state desk.old) (stage_now stage) (desk_now L.state desk.new) (stage_now result.stage)
        result.served result.left }
    ensures first { IsFresh (L.state desk.old.client) (desk_now L.state desk.old) (stage_now stage) → desk.old.number ≡ 1
        → WasRead (L.state desk.old.client) (L.state desk.new.client)
        ⊎ HasCome scene.entry.front.now.client desk.old.since.0 scene.entry.now.0 }
    ensures left { IfSome result.left (λ l. LeavesBy (limits_with (Some scene.entry.front.now) (Some scene.entry.back.now))
        scene.entry.now.0 (desk_now L.state desk.new) l.cause) }
    ensures own { (status taken : ℕ) → OwnAt status taken (desk_now L.state desk.old) (stage_now stage)
        → DoneOwn status taken (desk_now L.state desk.new) (stage_now result.stage) result.served }
    ensures still { result.moved ≡ false
        → StandsStill (desk_now L.state desk.old) (stage_now stage) (desk_now L.state desk.new) (stage_now result.stage) scene.entry.now.0 }
    ensures decides { (lack : Lack) × DoneDecides (terms_of (limits_with (Some scene.entry.front.now) (Some scene.entry.back.now)) lack) scene.entry.now.0
        (desk_now L.state desk.old) (stage_now stage) (N.state net.old) (desk_now L.state desk.new) (stage_now result.stage) (N.state net.new) result.served
        × ((u : Unserved) → HasLack lack u → LacksAt scene.entry.back.now.servers (map S.history seats.old) (map S.history seats.new) (N.state net.old) (N.state net.new) u) }
{
    let came = meet_deadline(desk, stage, seats, net, scene);
    let came = move_to_client(desk, came, seats, net, scene.now);
    let came = move_to_server(desk, came, seats, net, scene.now);
    let came = take_turn(came, seats, turn, scene.back);
    let came = do_phase(desk, came, seats, net, scene);
    let came = move_from_client(desk, came, seats, net, scene.now);
    let came = move_from_server(desk, came, seats, net, scene.now);
    conclude(desk, came, seats, net)
}
