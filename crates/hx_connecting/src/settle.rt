//! What becomes of a connection that may rest.

ghost use Rattle.std.specs.Prelude.{◌≡◌, ◌↔◌, ◌<◌, IsTrue, length, map, Some};
ghost use Rattle.hx_base.specs.declared.rules.Mode.TheVariants.{Never};
ghost use Rattle.hx_conn.specs.Steps.{rested_of};
ghost use Rattle.hx_base.specs.declared.numbers.ThreadNo.{ThreadNo};
ghost use Rattle.hx_connecting.specs.Around.{HasAround, abouts, resting};
ghost use Rattle.hx_connecting.specs.Closing.{AtSeat, HasHeld};
ghost use Rattle.hx_connecting.specs.Journals.{room_of};
ghost use Rattle.hx_connecting.specs.Rooms.{RoomStays, RoomsStay};
ghost use Rattle.hx_connecting.specs.Sessions.{Exchanging};
ghost use Rattle.hx_pool.specs.SeatView.{StandsInOneHistory};
ghost use Rattle.hx_pool.specs.Opening.{HasConn};
ghost use Rattle.hx_connecting.specs.Settling.{MaySettle, SettlesAs, Settles, RestsAs};

use crate::closing::{close, close_busy};
use hx_base::{Faced, Mode, SessionNo};
use hx_conn::{Busy, Rested};
use hx_link::{Link, Net};
use hx_pool::{Seat, Unparked};

/// Lets a connection rest under its server's rules: it is parked, or the session keeps it.
fn settle<L: Link, S: Seat<Rested<L>>, N: Net<L = L>>(
    seats: &mut [S],
    net: &mut N,
    n: SessionNo,
    rested: Rested<L>,
) -> Option<Rested<L>>
    requires seat { rested.server.0 < length seats.old }
    requires may { AtSeat (map S.history seats.old) rested.server.0 (λ h. MaySettle n rested h) }
    ensures settles { Settles (map S.history seats.old) (map S.history seats.new) n rested (N.state net.old) (N.state net.new) result }
    ensures loop_ { (N.state net.new).loop_no ≡ (N.state net.old).loop_no }
    ensures rooms { RoomsStay S.history (room_of S.kept_from S.spare) seats.old seats.new }
{
    let server = rested.server();
    let seat = &mut seats[server.0 as usize];
    settle_at(seat, net, n, rested)
}

/// The same at its server's seat.
fn settle_at<L: Link, S: Seat<Rested<L>>, N: Net<L = L>>(
    seat: &mut S,
    net: &mut N,
    n: SessionNo,
    rested: Rested<L>,
) -> Option<Rested<L>>
    requires may { MaySettle n rested (S.history seat.old) }
    ensures settles { SettlesAs (S.history seat.old) (S.history seat.new) n rested (N.state net.old) (N.state net.new) result }
    ensures room { RoomStays S.history (room_of S.kept_from S.spare) seat.old seat.new }
{
    if is_never(seat.rules().mode) {
        return Some(rested);
    }
    if let Err(Unparked { v, .. }) = seat.park(n, rested) {
        let id = v.face().id;
        let link = v.end();
        close(seat, net, n, id, link);
    }
    None
}

/// No connection is shared.
fn is_never(mode: Mode) -> bool
    ensures { IsTrue result ↔ (mode ≡ Never) }
{
    matches!(mode, Mode::Never)
}

/// After a whole answer the connection rests, or is closed.
pub fn rest<L: Link, S: Seat<Rested<L>>, N: Net<L = L>>(
    busy: Busy<L>,
    seats: &mut [S],
    net: &mut N,
    n: SessionNo,
) -> Option<Rested<L>>
    requires has { AtSeat (map S.history seats.old) busy.server.0 (λ h. HasConn h n busy.id) }
    requires may { AtSeat (map S.history seats.old) busy.server.0 (λ h. MaySettle n (rested_of busy) h) }
    requires one { AtSeat (map S.history seats.old) busy.server.0 (λ h. StandsInOneHistory h) }
    ensures around { (t : ThreadNo) → HasAround t n (Some (Exchanging busy)) (map S.history seats.old)
        → HasAround t n (resting result) (map S.history seats.new) }
    ensures own { HasHeld (map S.history seats.new) n result }
    ensures abouts { abouts (map S.history seats.new) ≡ abouts (map S.history seats.old) }
    ensures loop_ { (N.state net.new).loop_no ≡ (N.state net.old).loop_no }
    ensures rooms { RoomsStay S.history (room_of S.kept_from S.spare) seats.old seats.new }
    ensures rests { RestsAs (map S.history seats.old) (map S.history seats.new) n busy (N.state net.old) (N.state net.new) result }
{
    match busy.rest(net) {
        Ok(rested) => settle(seats, net, n, rested),
        Err(not_rested) => {
            close_busy(seats, net, n, not_rested.busy);
            None
        }
    }
}
