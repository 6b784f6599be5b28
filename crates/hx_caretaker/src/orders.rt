//! What an operator orders: a server drains, or takes requests again.
ghost use Rattle.std.specs.Prelude.{◌≡◌, ◌<◌, length, map};
ghost use Rattle.hx_connecting.specs.Journals.{JournalStays, JournalsStay, room_of};
ghost use Rattle.hx_caretaker.specs.Caring.{CaresFor, CaresForAll};
ghost use Rattle.hx_caretaker.specs.Owners.{HoldsOn, AllHoldOn};
ghost use Rattle.hx_caretaker.specs.Orders.{Obeys, OrdersAt, ordered_server};
ghost use Rattle.hx_caretaker.specs.Sweeps.{Sweeps, care_marks};

use crate::sweep::drain_all;
use hx_base::{Order, ServerNo};
use hx_conn::Rested;
use hx_link::{Link, Net};
use hx_pool::Seat;

/// The server of an order.
fn server_of(what: Order) -> ServerNo
    ensures { result ≡ ordered_server what }
{
    match what {
        Order::Drain(server) => server,
        Order::Ready(server) => server,
    }
}

/// Carries out an order at its server's seat. Drain closes all that rests there, and answers how many that were. Ready
/// answers 0.
pub fn order_seat<L: Link, S: Seat<Rested<L>>, N: Net<L = L>>(
    seat: &mut S,
    net: &mut N,
    what: Order,
) -> u64
    ensures cares { CaresFor (Sweeps (Obeys what)) (S.history seat.old) (S.history seat.new)
        (N.state net.old) (N.state net.new) result }
    ensures holds { HoldsOn (S.history seat.old) (S.history seat.new) }
    ensures journal { JournalStays care_marks (room_of S.kept_from S.spare seat.old)
        (room_of S.kept_from S.spare seat.new) }
{
    match what {
        Order::Drain(_) => {
            seat.set_drain();
            drain_all(seat, net)
        }
        Order::Ready(_) => {
            seat.set_ready();
            0
        }
    }
}

/// The same among a thread's seats: on other servers nothing is done.
pub fn order_seats<L: Link, S: Seat<Rested<L>>, N: Net<L = L>>(
    seats: &mut [S],
    net: &mut N,
    what: Order,
) -> u64
    requires there { (ordered_server what).0 < length seats.old }
    ensures cares { CaresForAll (OrdersAt what) (map S.history seats.old) (map S.history seats.new)
        (N.state net.old) (N.state net.new) result }
    ensures holds { AllHoldOn (map S.history seats.old) (map S.history seats.new) }
    ensures journals { JournalsStay care_marks (map (room_of S.kept_from S.spare) seats.old)
        (map (room_of S.kept_from S.spare) seats.new) }
    ensures size { length seats.new ≡ length seats.old }
{
    let server = server_of(what);
    let seat = &mut seats[server.0 as usize];
    order_seat(seat, net, what)
}
