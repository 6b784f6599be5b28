//! Any reader of std as a source, and any writer as a sink. They tell their bytes as std does.
ghost use Rattle.std.specs.Prelude.{◌≡◌, ◌<◌, length};
ghost use Rattle.hx_link.specs.Adapters.{new_reading, new_writing, ReadingReads, WritingWrites};

use crate::answers::{Got, Put};
use crate::source::{Sink, Source};
use std::io::{Read, Write};
use std::marker::Model;

/// A source that reads from a reader of std. Each error of the reader is a fault.
#[derive(Drop)]
pub struct Reading<R: Read> {
    inner: R,
    faults: u64,
    ended: bool,
}

impl<R: Read> Model for Reading<R> {
    ghost use Rattle.std.specs.Prelude.{◌≡◌, true};
    ghost use Rattle.std.specs.Io.KnownBytes.{IsAtEnd};
    ghost use Rattle.hx_link.specs.Adapters.{ReadingNow};
    ghost use Rattle.hx_link.specs.AdapterViews.{reading_now};

    ghost Value = { ReadingNow };

    ghost view = { λ s. reading_now s.faults s.ended (R.remaining s.inner) };

    ghost invariant = { λ s. s.ended ≡ true → IsAtEnd (R.remaining s.inner) };
}

impl<R: Read> Reading<R> {
    pub fn new(inner: R) -> Reading<R>
        ensures begins { result ≡ new_reading (R.remaining inner) }
    {
        Reading {
            inner,
            faults: 0,
            ended: false,
        }
    }
}

impl<R: Read> Source for Reading<R> {
    ghost use Rattle.hx_link.specs.Sources.{GotFits, KeepsEnd, SourceReads, SourceGives};

    ghost state = { λ s. s.state };

    fn read(&mut self, into: &mut [u8]) -> Got
        requires room { 0 < length into.old }
        ensures fits { GotFits result (length into.old) }
        ensures reads { SourceReads self.old.state self.new.state result }
        ensures gives { SourceGives self.old.state result into.new }
        ensures ended { KeepsEnd self.old.state.told_end result }
        ensures known { ReadingReads self.old self.new result into.new }
    {
        if self.ended {
            return Got::End;
        }
        match self.inner.read(into) {
            Ok(0) => {
                self.ended = true;
                Got::End
            }
            Ok(n) => Got::Bytes(n),
            Err(_) => {
                self.faults = self.faults.saturating_add(1);
                Got::Failed
            }
        }
    }
}

/// A sink that writes to a writer of std. Each error of the writer is a fault, and so is a write
/// that takes nothing.
#[derive(Drop)]
pub struct Writing<W: Write> {
    inner: W,
    faults: u64,
}

impl<W: Write> Model for Writing<W> {
    ghost use Rattle.hx_link.specs.Adapters.{WritingNow};
    ghost use Rattle.hx_link.specs.AdapterViews.{writing_now};

    ghost Value = { WritingNow };

    ghost view = { λ s. writing_now s.faults (W.contents s.inner) };
}

impl<W: Write> Writing<W> {
    pub fn new(inner: W) -> Writing<W>
        ensures begins { result ≡ new_writing (W.contents inner) }
    {
        Writing { inner, faults: 0 }
    }
}

impl<W: Write> Sink for Writing<W> {
    ghost use Rattle.hx_link.specs.Sources.{PutFits, SinkWrites};

    ghost state = { λ s. s.state };

    fn write(&mut self, bytes: &[u8]) -> Put
        requires some { 0 < length bytes.now }
        ensures fits { PutFits result (length bytes.now) }
        ensures writes { SinkWrites self.old.state self.new.state result bytes.now }
        ensures known { WritingWrites self.old self.new result bytes.now }
    {
        match self.inner.write(bytes) {
            Ok(0) | Err(_) => {
                self.faults = self.faults.saturating_add(1);
                Put::Failed
            }
            Ok(n) => Put::Bytes(n),
        }
    }
}
