//! Connections that a session closes: at their seats, and their links are buried.
ghost use Rattle.std.specs.Prelude.{◌≡◌, map, IfSome};
ghost use Rattle.hx_base.specs.declared.numbers.ThreadNo.{ThreadNo};
ghost use Rattle.hx_conn.specs.Conns.{IsBusy, IsRested};
ghost use Rattle.hx_pool.specs.Opening.{HasConn};
ghost use Rattle.hx_connecting.specs.Closing.{AtSeat, ClosesAt, ClosesHeld, HasHeld, ClosesAny};
ghost use Rattle.hx_connecting.specs.Around.{HasAround, abouts, resting};
ghost use Rattle.hx_connecting.specs.Connecting.{IsClosed};
ghost use Rattle.hx_connecting.specs.Journals.{room_of};
ghost use Rattle.hx_connecting.specs.Rooms.{RoomStays, RoomsStay};
ghost use Rattle.hx_connecting.specs.Sessions.{Resting, Exchanging};

use hx_base::{ConnId, Faced, SessionNo};
use hx_conn::{Busy, Rested};
use hx_link::{Link, Net};
use hx_pool::Seat;

/// Closes a connection at its seat and buries its link.
pub(crate) fn close<L: Link, S: Seat<Rested<L>>, N: Net<L = L>>(
    seat: &mut S,
    net: &mut N,
    n: SessionNo,
    id: ConnId,
    link: L,
)
    requires has { HasConn (S.history seat.old) n id }
    ensures closed { IsClosed (S.history seat.old) (S.history seat.new) n id
        (N.state net.old) (N.state net.new) (L.state link) }
    ensures room { RoomStays S.history (room_of S.kept_from S.spare) seat.old seat.new }
{
    seat.close(n, id);
    net.bury(link);
}

/// Closes a connection that carries an exchange.
pub fn close_busy<L: Link, S: Seat<Rested<L>>, N: Net<L = L>>(
    seats: &mut [S],
    net: &mut N,
    n: SessionNo,
    busy: Busy<L>,
)
    requires has { AtSeat (map S.history seats.old) busy.server.0 (λ h. HasConn h n busy.id) }
    ensures closes { ClosesAt (map S.history seats.old) (map S.history seats.new) busy.server.0 n busy.id
        (N.state net.old) (N.state net.new) busy.link }
    ensures meaning { IsBusy busy }
    ensures around { (t : ThreadNo) → HasAround t n (Some (Exchanging busy)) (map S.history seats.old)
        → HasAround t n None (map S.history seats.new) }
    ensures abouts { abouts (map S.history seats.new) ≡ abouts (map S.history seats.old) }
    ensures loop_ { (N.state net.new).loop_no ≡ (N.state net.old).loop_no }
    ensures rooms { RoomsStay S.history (room_of S.kept_from S.spare) seats.old seats.new }
{
    let server = busy.server();
    let id = busy.id();
    let link = busy.end(net);
    let seat = &mut seats[server.0 as usize];
    close(seat, net, n, id, link);
}

/// Closes a connection that the session holds.
pub fn close_held<L: Link, S: Seat<Rested<L>>, N: Net<L = L>>(
    seats: &mut [S],
    net: &mut N,
    n: SessionNo,
    held: Rested<L>,
)
    requires has { AtSeat (map S.history seats.old) held.server.0 (λ h. HasConn h n held.id) }
    ensures closes { ClosesHeld (map S.history seats.old) (map S.history seats.new) held.server.0 n held.id
        (N.state net.old) (N.state net.new) held.link }
    ensures meaning { IsRested held }
    ensures around { (t : ThreadNo) → HasAround t n (Some (Resting held)) (map S.history seats.old)
        → HasAround t n None (map S.history seats.new) }
    ensures abouts { abouts (map S.history seats.new) ≡ abouts (map S.history seats.old) }
    ensures loop_ { (N.state net.new).loop_no ≡ (N.state net.old).loop_no }
    ensures rooms { RoomsStay S.history (room_of S.kept_from S.spare) seats.old seats.new }
{
    let server = held.server();
    let id = held.face().id;
    let link = held.end();
    let seat = &mut seats[server.0 as usize];
    close(seat, net, n, id, link);
}

/// Closes what the session holds, if anything.
pub fn close_any<L: Link, S: Seat<Rested<L>>, N: Net<L = L>>(
    seats: &mut [S],
    net: &mut N,
    n: SessionNo,
    held: Option<Rested<L>>,
)
    requires has { HasHeld (map S.history seats.old) n held }
    ensures closes { ClosesAny (map S.history seats.old) (map S.history seats.new) n held (N.state net.old) (N.state net.new) }
    ensures meaning { IfSome held IsRested }
    ensures around { (t : ThreadNo) → HasAround t n (resting held) (map S.history seats.old)
        → HasAround t n None (map S.history seats.new) }
    ensures abouts { abouts (map S.history seats.new) ≡ abouts (map S.history seats.old) }
    ensures loop_ { (N.state net.new).loop_no ≡ (N.state net.old).loop_no }
    ensures rooms { RoomsStay S.history (room_of S.kept_from S.spare) seats.old seats.new }
{
    match held {
        None => {}
        Some(rested) => close_held(seats, net, n, rested),
    }
}
