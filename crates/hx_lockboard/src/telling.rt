//! Two seats of one board that tell each other.
ghost use Rattle.hx_pool.specs.SeatView.{AreOfOneBoard};
ghost use Rattle.hx_lockboard.specs.Telling.{KnowAlike};

use crate::seat::LockSeat;
use hx_base::Faced;
use hx_pool::Seat;
use std::sync::Wait;

/// Lets two seats of one board tell each other what they have observed. What the second had
/// observed when it was told begins what both have observed then, and has of either thread's entries
/// just that seat's own.
pub fn tell_each_other<'a, R: Wait, V: Faced>(
    first: &mut LockSeat<'a, R, V>,
    second: &mut LockSeat<'a, R, V>,
)
    requires { AreOfOneBoard first.old.history second.old.history }
    ensures { KnowAlike first.old.history second.old.history
        first.new.history second.new.history }
{
    first.tell(second);
    second.tell(first);
}
