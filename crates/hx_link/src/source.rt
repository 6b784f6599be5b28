//! Where a whole text comes from and goes to.
ghost use Rattle.std.specs.Prelude.{◌≡◌, ◌<◌, ◌≤◌, length};

use crate::answers::{Got, Put};

/// Gives bytes in order up to its end.
pub trait Source {
    ghost use Rattle.hx_link.specs.Told.{SourceState};
    ghost use Rattle.hx_link.specs.Sources.{GotFits, KeepsEnd, SourceReads, SourceGives};

    // Its count of faults, what it has left where it tells that, and whether it told its end.
    ghost state: { Self → SourceState };

    /// Gives the next bytes, or tells the end.
    fn read(&mut self, into: &mut [u8]) -> Got
        requires room { 0 < length into.old }
        ensures fits { GotFits result (length into.old) }
        ensures reads { SourceReads (state self.old) (state self.new) result }
        ensures gives { SourceGives (state self.old) result into.new }
        ensures ended { KeepsEnd (state self.old).told_end result };
}

/// Takes bytes in order.
pub trait Sink {
    ghost use Rattle.hx_link.specs.Told.{SinkState};
    ghost use Rattle.hx_link.specs.Sources.{PutFits, SinkWrites};

    // Its count of faults, and all that it took where it tells that.
    ghost state: { Self → SinkState };

    /// Takes the first bytes.
    fn write(&mut self, bytes: &[u8]) -> Put
        requires some { 0 < length bytes.now }
        ensures fits { PutFits result (length bytes.now) }
        ensures writes { SinkWrites (state self.old) (state self.new) result bytes.now };
}
