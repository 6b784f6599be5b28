//! What tells the moment.
ghost use Rattle.std.specs.Prelude.{◌≡◌};

use hx_base::Millis;

/// Tells the moment.
pub trait Clock {
    fn now(&self) -> Millis;
}

/// A clock that stands still.
#[derive(Clone, Copy, Debug, PartialEq, Eq)]
pub struct StillClock(pub Millis);

impl Clock for StillClock {
    fn now(&self) -> Millis
        ensures still { result ≡ self.now.0 }
    {
        self.0
    }
}
