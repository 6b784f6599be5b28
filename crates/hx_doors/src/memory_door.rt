//! A door in memory.
ghost use Rattle.std.specs.Prelude.{◌≡◌, All, map};
ghost use Rattle.hx_doors.specs.Doors.{IsClient};
ghost use Rattle.hx_doors.specs.MemoryDoors.{client_told, new_door, MemoryListens, MemoryAccepts};

use crate::door::{Accepted, Door};
use hx_base::{Address, Millis};
use hx_link::{Link, NetFault};
use std::collections::VecDeque;
use std::marker::Model;
use std::snapshot::Snapshot;

/// Gives its clients in order, and then none.
#[derive(Drop)]
pub struct MemoryDoor<L: Link> {
    /// Those that are left, in order.
    left: VecDeque<(u16, L)>,
    /// All that it was made with, in order.
    all: Snapshot<Vec<(u16, L)>>,
    /// How many it gave.
    given: usize,
    listens: Vec<(u16, Address)>,
    /// Each listen was noted.
    telling: bool,
    waits: u64,
}

impl<L: Link> Model for MemoryDoor<L> {
    ghost use Rattle.hx_doors.specs.MemoryDoors.{MemoryDoorNow};

    ghost Value = { MemoryDoorNow };

    ghost use Rattle.hx_doors.specs.MemoryDoorView.{door_view, IsDoor};

    ghost view = { door_view L.state };

    ghost invariant = { IsDoor L.state };
}

impl<L: Link> MemoryDoor<L> {
    /// It takes no memory, and keeps the clients' allocator.
    pub fn new(clients: Vec<(u16, L)>) -> MemoryDoor<L>
        requires new { All (λ c. IsClient (L.state c.1)) clients.items }
        ensures begins { result ≡ new_door (map (client_told L.state) clients.items) }
    {
        let all = Snapshot::of(&clients);
        let listens = Vec::new(*clients.allocator());
        MemoryDoor {
            left: VecDeque::from_vec(clients),
            all,
            given: 0,
            listens,
            telling: true,
            waits: 0,
        }
    }
}

impl<L: Link> Door for MemoryDoor<L> {
    ghost use Rattle.hx_doors.specs.Doors.{DoorListens, DoorAccepts};

    type L = L;

    ghost state = { λ d. d.state };

    /// It never fails.
    fn listen(&mut self, front: u16, address: &Address) -> Result<(), NetFault>
        ensures listens { DoorListens self.old.state self.new.state front address.now result }
        ensures answers { MemoryListens self.old self.new front address.now result }
    {
        if self.listens.push((front, *address)).is_err() {
            self.telling = false;
        }
        Ok(())
    }

    /// It waits for nothing.
    fn accept(&mut self, _limit: Millis) -> Accepted<L>
        ensures accepts { DoorAccepts L.state self.old.state self.new.state result }
        ensures answers { MemoryAccepts L.state self.old self.new result }
    {
        match self.left.pop_front() {
            Some((front, link)) => {
                self.given += 1;
                Accepted::Client(front, link)
            }
            None => {
                self.waits = self.waits.saturating_add(1);
                Accepted::NotYet
            }
        }
    }
}
