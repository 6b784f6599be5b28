//! A caller of any seat: one exchange on a new connection.
ghost use Rattle.std.specs.Prelude.{◌≡◌, ◌≢◌, MatchOption};
ghost use Rattle.hx_base.specs.declared.numbers.ServerNo.{ServerNo};
ghost use Rattle.hx_pool.specs.Exchange.{Exchanges, GivesUp};

use crate::seat::Seat;
use hx_base::{ConnId, Faced, SessionNo};

/// Makes the value of a connection that was opened, after its first use.
pub trait Dials<V: Faced> {
    // The server that it dials.
    ghost server: { Self → ServerNo };

    fn dial(&mut self, id: ConnId) -> V
        ensures face { (V.shows result).face ≡ record { id = id; uses = 1 } }
        ensures server { (V.shows result).server ≡ server self.old };
}

/// Opens a connection for session `n`, uses it, parks it, takes one of the thread's row and closes
/// that. None: the seat had no number, or it refused the park and the connection was closed, or
/// nothing was there to take.
pub fn one_exchange<V: Faced, S: Seat<V>, D: Dials<V>>(
    seat: &mut S,
    dials: &mut D,
    n: SessionNo,
) -> Option<ConnId>
    requires session { n.0 ≢ 0 }
    requires server { D.server dials.old ≡ (S.history seat.old).about.server }
    ensures { MatchOption result
        (GivesUp (S.history seat.old) (S.history seat.new) n)
        (Exchanges (S.history seat.old) (S.history seat.new) n) }
{
    let opened = match seat.open_new(n) {
        Ok(id) => id,
        Err(_) => return None,
    };
    let made = dials.dial(opened);
    match seat.park(n, made) {
        Ok(_) => {}
        Err(_) => {
            seat.close(n, opened);
            return None;
        }
    }
    let taken = seat.take_own(n, false)?;
    let id = taken.face().id;
    seat.close(n, id);
    Some(id)
}
