//! Where a seat writes its entries.
ghost use Rattle.std.specs.Prelude.{◌≡◌, true};
ghost use Rattle.hx_pool.specs.History.{plain};
ghost use Rattle.hx_resting.specs.Desks.{DeskView, adds_note};

use hx_pool::Entry;

/// A seat's token at its table. An entry takes no memory: it is a step of the table, which the
/// seat's view remembers.
pub trait Desk {
    // What the seat knows of its board, and the entries that it wrote.
    ghost page: { Self → DeskView };

    /// Makes an entry with nothing beside it, while the seat has the board's value.
    fn write(&mut self, entry: Entry)
        requires out { (page self.old).view.out ≡ true }
        ensures { page self.new ≡ adds_note (page self.old) (plain entry) };
}
