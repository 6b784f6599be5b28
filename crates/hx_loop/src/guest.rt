//! What goes from the door to a worker.
ghost use Rattle.hx_doors.specs.Doors.{IsClient};

use hx_handoff::Errand;
use hx_link::Link;
use std::marker::Model;

/// A client of which nothing was read yet.
#[derive(Drop)]
pub struct Guest<L: Link> {
    link: L,
}

impl<L: Link> Model for Guest<L> {
    ghost use Rattle.hx_link.specs.Told.{LinkState};
    ghost use Rattle.hx_doors.specs.Doors.{IsClient};

    ghost Value = { LinkState };

    ghost view = { λ g. L.state g.link };

    ghost invariant = { λ g. IsClient (L.state g.link) };
}

impl<L: Link> Guest<L> {
    pub fn new(link: L) -> Guest<L>
        requires new { IsClient (L.state link) }
    {
        Guest { link }
    }

    /// Its link.
    pub fn into_link(self) -> L
        ensures new { IsClient (L.state result) }
    {
        let Guest { link } = self;
        link
    }
}

/// What lanes carry here.
pub type Carried<L> = Errand<Guest<L>>;
