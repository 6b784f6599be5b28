//! A connection to a client or a server.
ghost use Rattle.std.specs.Prelude.{◌≡◌, ◌<◌, ◌≤◌, length};

use crate::answers::{Got, Put};
use hx_base::Millis;

/// Gives and takes bytes in order, and may have to wait for either.
pub trait Link: Drop {
    ghost use Rattle.hx_link.specs.Told.{LinkState, IsCounted};
    ghost use Rattle.hx_link.specs.Sources.{GotFits, PutFits, KeepsEnd};
    ghost use Rattle.hx_link.specs.Links.{LinkReads, LinkWrites, LinkFinishes, ReadKeepsLimit, WriteKeepsLimit};

    // Its counts of faults, waits and bytes, and what else it tells.
    ghost state: { Self → LinkState };

    /// Gives the next bytes that are there at the moment, or tells the end.
    fn read(&mut self, now: Millis, into: &mut [u8]) -> Got
        requires room { 0 < length into.old }
        ensures fits { GotFits result (length into.old) }
        ensures asks { (state self.new).read_length ≡ length into.old }
        ensures reads { LinkReads (state self.old) (state self.new) now.0 result into.new }
        ensures ended { KeepsEnd (state self.old).told_end result }
        ensures limit { ReadKeepsLimit (state self.old).taken_count result }
        ensures counted { IsCounted (state self.old) → IsCounted (state self.new) };

    /// Takes the first bytes at the moment.
    fn write(&mut self, now: Millis, bytes: &[u8]) -> Put
        requires some { 0 < length bytes.now }
        ensures fits { PutFits result (length bytes.now) }
        ensures offers { (state self.new).write_length ≡ length bytes.now }
        ensures writes { LinkWrites (state self.old) (state self.new) now.0 result bytes.now }
        ensures limit { WriteKeepsLimit (state self.old).sent_count result }
        ensures counted { IsCounted (state self.old) → IsCounted (state self.new) };

    /// Nothing more will be written. A fault of the machine raises the count of faults.
    fn finish(&mut self)
        ensures finishes { LinkFinishes (state self.old) (state self.new) };
}
