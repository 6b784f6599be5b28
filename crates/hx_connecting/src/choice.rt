//! The choice of a server.

ghost use Rattle.std.specs.Prelude.{◌≡◌, ◌<◌, ◌≤◌, ◌+◌, [], ◌∷◌, length, map, nat_lt, if◌then◌else◌};
ghost use Rattle.hx_connecting.specs.Choice.{AskedAll, Chooses, HaveSeats};
ghost use Rattle.hx_connecting.specs.Journals.{room_of};
ghost use Rattle.hx_connecting.specs.Rooms.{RoomsStay};

use hx_base::ServerNo;
use hx_config::Server;
use hx_conn::Rested;
use hx_link::Link;
use hx_pool::Seat;

/// The next server in turn.
fn after(at: usize, count: usize) -> usize
    requires { at < count }
    ensures { result ≡ (if nat_lt (at + 1) count then at + 1 else 0) }
{
    if at + 1 < count { at + 1 } else { 0 }
}

/// Whether the server's seat is ready.
fn ask_seat<L: Link, S: Seat<Rested<L>>>(seats: &mut [S], server: &Server) -> bool
    requires { server.now.no.0 < length seats.old }
    ensures asked { AskedAll (server.now ∷ []) result (map S.history seats.old) (map S.history seats.new) }
    ensures count { length seats.new ≡ length seats.old }
    ensures rooms { RoomsStay S.history (room_of S.kept_from S.spare) seats.old seats.new }
{
    let seat = &mut seats[server.no.0 as usize];
    seat.ready()
}

/// The first server from the turn on, with wrap, whose seat is ready. The turn becomes the one after it.
pub fn choose<L: Link, S: Seat<Rested<L>>>(
    servers: &[Server],
    seats: &mut [S],
    turn: &mut u16,
) -> Option<ServerNo>
    requires few { length servers.now ≤ 32 }
    requires turn { turn.old < length servers.now }
    requires seats { HaveSeats servers.now (length seats.old) }
    ensures chooses { Chooses servers.now turn.old turn.new (map S.history seats.old) (map S.history seats.new) result }
    ensures rooms { RoomsStay S.history (room_of S.kept_from S.spare) seats.old seats.new }
{
    let mut at = *turn as usize;
    for count in 0..servers.len() {
        let server = &servers[at];
        let next = after(at, servers.len());
        if ask_seat(seats, server) {
            *turn = next as u16;
            return Some(server.no);
        }
        at = next;
    }
    None
}
