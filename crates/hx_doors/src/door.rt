//! What accepts clients.

use hx_base::{Address, Millis, ThreadNo};
use hx_link::{Link, NetFault};

/// What an accept gave.
#[derive(Drop)]
pub enum Accepted<L> {
    /// A client of the front of this number.
    Client(u16, L),
    /// None waits.
    NotYet,
    /// The count of faults rose.
    Failed,
}

/// Listens for the clients of fronts.
pub trait Door {
    ghost use Rattle.hx_doors.specs.Doors.{DoorState, DoorListens, DoorAccepts};

    type L: Link;

    // Its counts of faults and waits, and its clients and listens where it tells them.
    ghost state: { Self → DoorState };

    /// Begins to listen for a front.
    ///
    /// # Errors
    /// `NetFault` where the door failed.
    fn listen(&mut self, front: u16, address: &Address) -> Result<(), NetFault>
        ensures listens { DoorListens (state self.old) (state self.new) front address.now result };

    /// The next client, for which it waits up to the limit.
    fn accept(&mut self, limit: Millis) -> Accepted<Self::L>
        ensures accepts { DoorAccepts Self.L.state (state self.old) (state self.new) result };

    /// Ends the pause of that thread's net, where it may pause. A door whose nets don't wait does nothing.
    fn wake(&self, _thread: ThreadNo) {}
}
