//! Bytes that move between a link and a pipe.
ghost use Rattle.std.specs.Prelude.{◌≡◌, ◌<◌, length};
ghost use Rattle.hx_link.specs.Sources.{GotFits, PutFits, KeepsEnd};
ghost use Rattle.hx_link.specs.Links.{ReadKeepsLimit, WriteKeepsLimit};
ghost use Rattle.hx_link.specs.Told.{IsCounted};
ghost use Rattle.hx_link.specs.Moves.{got_count, read_room, ReadsInto, WritesFrom};

use crate::answers::{Got, Put};
use crate::link::Link;
use crate::pipe::Pipe;
use hx_base::Millis;

/// The most bytes of one read.
const MOST_READ: usize = 18_432;

/// How many bytes a read gave.
fn count_of(got: Got) -> usize
    ensures { result ≡ got_count got }
{
    match got {
        Got::Bytes(n) => n,
        Got::NotYet | Got::End | Got::Failed => 0,
    }
}

/// Reads once, at most 18,432 bytes and what the pipe has room for, and puts them at its end.
pub fn read_into<L: Link>(link: &mut L, now: Millis, into: &mut Pipe) -> Got
    requires room { length into.old.bytes < into.old.capacity }
    ensures fits { GotFits result (read_room into.old) }
    ensures asks { (L.state link.new).read_length ≡ read_room into.old }
    ensures reads { ReadsInto (L.state link.old) (L.state link.new) now.0 into.old into.new result }
    ensures ended { KeepsEnd (L.state link.old).told_end result }
    ensures limit { ReadKeepsLimit (L.state link.old).taken_count result }
    ensures counted { IsCounted (L.state link.old) → IsCounted (L.state link.new) }
{
    let room = into.room().min(MOST_READ);
    let got = link.read(now, into.grow(room));
    into.drop_back(room - count_of(got));
    got
}

/// Writes once all that the pipe holds, and drops what was taken of it.
pub fn write_from<L: Link>(link: &mut L, now: Millis, from: &mut Pipe) -> Put
    requires some { 0 < length from.old.bytes }
    ensures fits { PutFits result (length from.old.bytes) }
    ensures offers { (L.state link.new).write_length ≡ length from.old.bytes }
    ensures writes { WritesFrom (L.state link.old) (L.state link.new) now.0 from.old from.new result }
    ensures limit { WriteKeepsLimit (L.state link.old).sent_count result }
    ensures counted { IsCounted (L.state link.old) → IsCounted (L.state link.new) }
{
    let put = link.write(now, from.whole());
    if let Put::Bytes(n) = put {
        from.drop_front(n);
    }
    put
}
