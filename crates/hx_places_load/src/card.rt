//! A value that shows a face alone.

use hx_base::{Face, Faced};

#[derive(Drop)]
pub(crate) struct Card {
    pub(crate) face: Face,
}

impl Faced for Card {
    ghost use Rattle.std.specs.Prelude.{None};

    ghost shows = { λ c. record { face = c.face; server = record { 0 = 0 }; what = record { faults = 0; tag = None; told = None; plan = None } } };

    fn face(&self) -> Face {
        self.face
    }
}
