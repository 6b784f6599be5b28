//! A connection for a request: one that rests, or a new one.

ghost use Rattle.std.specs.Prelude.{◌≡◌, ◌≢◌, ◌<◌, ℕ, false, length, map, IfOk, IfErr, IfSome};
ghost use Rattle.hx_base.specs.declared.numbers.ThreadNo.{ThreadNo};
ghost use Rattle.hx_pool.specs.Opening.{HasConn};
ghost use Rattle.hx_pool.specs.Rules.{allows};
ghost use Rattle.hx_connecting.specs.Connecting.{Finds, Dies, BeginsProbed, TriesRested, TriesNew, Connects};
ghost use Rattle.hx_connecting.specs.Connecting.{TriesFor};
ghost use Rattle.hx_connecting.specs.Closing.{HoldsTo, ConnectsTo, HasBegun, BeginsNew};
ghost use Rattle.hx_connecting.specs.Around.{AreNumbered, HasAround, abouts, resting};
ghost use Rattle.hx_connecting.specs.Journals.{room_of};
ghost use Rattle.hx_connecting.specs.Rooms.{RoomStays, RoomsStay};
ghost use Rattle.hx_connecting.specs.Touched.{conn_after};

use crate::closing::close;
use hx_base::{Address, Faced, Millis, Mode, ServerNo, SessionNo};
use hx_conn::{Busy, Dead, Rested};
use hx_link::{Link, Net};
use hx_message::MethodKind;
use hx_pool::{Seat, allowed};

/// For which request a connection is wanted, to which server, and when.
#[derive(Clone, Copy)]
pub struct Want {
    pub n: SessionNo,
    /// It is the first request of the session.
    pub first: bool,
    pub method: MethodKind,
    pub server: ServerNo,
    pub now: Millis,
}

/// What came of a try to connect.
#[derive(Drop)]
pub enum Connected<L: Link> {
    /// An exchange may begin. `fresh`: the connection was opened for it.
    Begun { busy: Busy<L>, fresh: bool },
    /// The connection that was taken or held is dead, and was closed.
    Dead,
    /// The new one failed, or there is no number for one.
    Refused,
}

/// The mode lets the request go over some connection that rests.
fn may_share(mode: Mode, first: bool) -> bool
    ensures none { result ≡ false → (u : ℕ) → allows mode first u ≡ false }
{
    allowed(mode, first, u16::MAX)
}

/// Takes a connection that rests.
fn take<L: Link, S: Seat<Rested<L>>>(seat: &mut S, want: Want) -> Option<Rested<L>>
    requires session { want.n.0 ≢ 0 }
    ensures finds { Finds (S.history seat.old) (S.history seat.new) want.n want.first result }
    ensures has { IfSome result (λ r. HasConn (S.history seat.new) want.n r.id) }
    ensures room { RoomStays S.history (room_of S.kept_from S.spare) seat.old seat.new }
{
    if !may_share(seat.rules().mode, want.first) {
        return None;
    }
    match seat.take_own(want.n, want.first) {
        Some(rested) => Some(rested),
        None => match seat.take_over(want.n, want.first) {
            Ok(rested) => Some(rested),
            Err(_) => None,
        },
    }
}

/// Begins an exchange on a connection that rested.
fn begin_rested<L: Link, S: Seat<Rested<L>>, N: Net<L = L>>(
    seat: &mut S,
    net: &mut N,
    want: Want,
    rested: Rested<L>,
) -> Connected<L>
    requires has { HasConn (S.history seat.old) want.n rested.id }
    ensures tries { TriesRested (S.history seat.old) (S.history seat.new) want.n rested want.now.0 want.method
        (N.state net.old) (N.state net.new) result }
    ensures room { RoomStays S.history (room_of S.kept_from S.spare) seat.old seat.new }
{
    match begin(net, rested, want.method, want.now) {
        Ok(busy) => Connected::Begun { busy, fresh: false },
        Err(dead) => {
            close(seat, net, want.n, dead.id, dead.link);
            Connected::Dead
        }
    }
}

fn begin<L: Link, N: Net<L = L>>(
    net: &mut N,
    rested: Rested<L>,
    method: MethodKind,
    now: Millis,
) -> Result<Busy<L>, Dead<L>>
    ensures ok { IfOk result (BeginsProbed rested now.0 method (N.state net.old) (N.state net.new)) }
    ensures dead { IfErr result (λ d. (d.id ≡ rested.id)
        × Dies rested now.0 (L.state d.link) (N.state net.old) (N.state net.new)) }
{
    match rested.probe(now) {
        Ok(rested) => rested.begin(net, method),
        Err(dead) => Err(dead),
    }
}

/// Opens a connection and begins an exchange on it.
fn open<L: Link, S: Seat<Rested<L>>, N: Net<L = L>>(
    seat: &mut S,
    net: &mut N,
    want: Want,
    address: &Address,
) -> Connected<L>
    requires session { want.n.0 ≢ 0 }
    ensures tries { TriesNew (S.history seat.old) (S.history seat.new) want.n want.server want.method
        (N.state net.old) (N.state net.new) result }
    ensures room { RoomStays S.history (room_of S.kept_from S.spare) seat.old seat.new }
{
    let Ok(id) = seat.open_new(want.n) else {
        return Connected::Refused;
    };
    let Ok(link) = net.dial(want.server, address, id, want.now) else {
        seat.close(want.n, id);
        return Connected::Refused;
    };
    match Rested::first(link, id, want.server).begin(net, want.method) {
        Ok(busy) => Connected::Begun { busy, fresh: true },
        Err(dead) => {
            close(seat, net, want.n, dead.id, dead.link);
            Connected::Refused
        }
    }
}

/// Takes a connection that rests, or else opens one.
fn take_or_open<L: Link, S: Seat<Rested<L>>, N: Net<L = L>>(
    seat: &mut S,
    net: &mut N,
    want: Want,
    address: &Address,
) -> Connected<L>
    requires session { want.n.0 ≢ 0 }
    ensures tries { Connects (S.history seat.old) (S.history seat.new) want.n want.first want.server want.now.0 want.method
        (N.state net.old) (N.state net.new) result }
    ensures room { RoomStays S.history (room_of S.kept_from S.spare) seat.old seat.new }
{
    match take(seat, want) {
        Some(rested) => begin_rested(seat, net, want, rested),
        None => open(seat, net, want, address),
    }
}

/// The same at the server's seat, for a session that holds a connection to it, or none.
fn connect_at<L: Link, S: Seat<Rested<L>>, N: Net<L = L>>(
    seat: &mut S,
    net: &mut N,
    want: Want,
    address: &Address,
    held: Option<Rested<L>>,
) -> Connected<L>
    requires session { want.n.0 ≢ 0 }
    requires has { IfSome held (λ r. HasConn (S.history seat.old) want.n r.id) }
    ensures tries { TriesFor (S.history seat.old) (S.history seat.new) want.n want.first want.server want.now.0 want.method
        (N.state net.old) (N.state net.new) held result }
    ensures room { RoomStays S.history (room_of S.kept_from S.spare) seat.old seat.new }
{
    match held {
        Some(rested) => begin_rested(seat, net, want, rested),
        None => take_or_open(seat, net, want, address),
    }
}

/// Connects a session to the server that it wants: on the connection that it holds, or else on one that rests or a new
/// one.
pub fn connect<L: Link, S: Seat<Rested<L>>, N: Net<L = L>>(
    seats: &mut [S],
    net: &mut N,
    want: Want,
    address: &Address,
    held: Option<Rested<L>>,
) -> Connected<L>
    requires session { want.n.0 ≢ 0 }
    requires seat { want.server.0 < length seats.old }
    requires servers { AreNumbered 0 (map S.history seats.old) }
    requires has { HoldsTo (map S.history seats.old) want.n want.server held }
    ensures connects { ConnectsTo (map S.history seats.old) (map S.history seats.new) want.n want.first want.server want.now.0
        want.method (N.state net.old) (N.state net.new) held result }
    ensures around { (t : ThreadNo) → HasAround t want.n (resting held) (map S.history seats.old)
        → (N.state net.old).loop_no ≡ t.0 → HasAround t want.n (conn_after result) (map S.history seats.new) }
    ensures begins { BeginsNew want.method result }
    ensures own { HasBegun (map S.history seats.new) want.n want.server result }
    ensures abouts { abouts (map S.history seats.new) ≡ abouts (map S.history seats.old) }
    ensures loop_ { (N.state net.new).loop_no ≡ (N.state net.old).loop_no }
    ensures rooms { RoomsStay S.history (room_of S.kept_from S.spare) seats.old seats.new }
{
    let server = want.server;
    let seat = &mut seats[server.0 as usize];
    connect_at(seat, net, want, address, held)
}
