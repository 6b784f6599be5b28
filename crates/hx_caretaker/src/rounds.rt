//! The caretaker's round at a moment (HAProxy 2.4 Configuration Manual, section 5.2: pool-purge-delay).
ghost use Rattle.std.specs.Prelude.{◌≡◌, ◌≤◌, length, map};
ghost use Rattle.hx_connecting.specs.Journals.{JournalStays, JournalsStay, room_of};
ghost use Rattle.hx_caretaker.specs.Caring.{CaresFor, CaresForAll};
ghost use Rattle.hx_caretaker.specs.Owners.{HoldsOn, AllHoldOn};
ghost use Rattle.hx_caretaker.specs.Rounds.{Ticks, TicksAt};
ghost use Rattle.hx_caretaker.specs.Sweeps.{Sweeps, care_marks};

use crate::sweep::purge_all;
use hx_base::Millis;
use hx_conn::Rested;
use hx_link::{Link, Net};
use hx_pool::Seat;

/// Raises the purge interval of one server to that of a moment. Where it is a new one, so many of the connections that
/// rest are closed as it says, and their links are buried. It answers how many that were.
pub fn tick_seat<L: Link, S: Seat<Rested<L>>, N: Net<L = L>>(
    seat: &mut S,
    net: &mut N,
    now: Millis,
) -> u64
    ensures cares { CaresFor (Sweeps (Ticks now)) (S.history seat.old) (S.history seat.new)
        (N.state net.old) (N.state net.new) result }
    ensures holds { HoldsOn (S.history seat.old) (S.history seat.new) }
    ensures journal { JournalStays care_marks (room_of S.kept_from S.spare seat.old)
        (room_of S.kept_from S.spare seat.new) }
{
    match seat.due(now) {
        Some(quota) => purge_all(seat, net, quota),
        None => 0,
    }
}

/// The same at each of a thread's seats, in order.
pub fn tick_seats<L: Link, S: Seat<Rested<L>>, N: Net<L = L>>(
    seats: &mut [S],
    net: &mut N,
    now: Millis,
) -> u64
    requires few { length seats.old ≤ 32 }
    ensures cares { CaresForAll (TicksAt now) (map S.history seats.old) (map S.history seats.new)
        (N.state net.old) (N.state net.new) result }
    ensures holds { AllHoldOn (map S.history seats.old) (map S.history seats.new) }
    ensures journals { JournalsStay care_marks (map (room_of S.kept_from S.spare) seats.old)
        (map (room_of S.kept_from S.spare) seats.new) }
    ensures size { length seats.new ≡ length seats.old }
{
    let mut count = 0;
    for seat in seats.iter_mut() {
        count += tick_seat(seat, net, now);
    }
    count
}
