//! A value that may rest in a pool.
ghost use Rattle.std.specs.Prelude.{◌≡◌};
ghost use Rattle.hx_base.specs.Shown.{Shown};

use crate::numbers::Face;

pub trait Faced: Drop {
    // Its face, the server for which it was dialled, and what its link tells.
    ghost shows: { Self → Shown };

    /// The connection's number and its uses.
    fn face(&self) -> Face
        ensures { result ≡ (shows self.now).face };
}
