//! A file of a cabinet in memory.
ghost use Rattle.std.specs.Prelude.{◌≡◌, ◌<◌, length};
ghost use Rattle.hx_link.specs.MemorySources.{MemorySourceNow, MemorySourceReads};
ghost use Rattle.hx_doors.specs.MemoryCabinets.{IsUnread};

use hx_link::{Got, MemorySource, Source};
use std::marker::Model;

/// A source in memory that remembers how often it failed and whether it told its end.
#[derive(Drop)]
pub struct MemoryFile {
    source: MemorySource,
    faults: u64,
    ended: bool,
}

impl Model for MemoryFile {
    ghost use Rattle.hx_link.specs.MemorySources.{MemorySourceNow};

    ghost Value = { MemorySourceNow };

    ghost use Rattle.hx_doors.specs.MemoryFileView.{file_view, IsFile};

    ghost view = { file_view };

    ghost invariant = { IsFile };
}

impl MemoryFile {
    pub(crate) fn new(source: MemorySource) -> MemoryFile
        requires { IsUnread source }
        ensures { result ≡ source }
    {
        MemoryFile {
            source,
            faults: 0,
            ended: false,
        }
    }

    /// How often it failed.
    pub(crate) fn faults(&self) -> u64
        ensures { result ≡ self.now.state.faults }
    {
        self.faults
    }

    /// Whether it told its end.
    pub(crate) fn ended(&self) -> bool
        ensures { result ≡ self.now.state.told_end }
    {
        self.ended
    }
}

impl Source for MemoryFile {
    ghost use Rattle.hx_link.specs.Sources.{GotFits, KeepsEnd, SourceReads, SourceGives};

    ghost state = { λ s. s.state };

    fn read(&mut self, into: &mut [u8]) -> Got
        requires room { 0 < length into.old }
        ensures fits { GotFits result (length into.old) }
        ensures reads { SourceReads self.old.state self.new.state result }
        ensures gives { SourceGives self.old.state result into.new }
        ensures ended { KeepsEnd self.old.state.told_end result }
        ensures answers { MemorySourceReads self.old self.new (length into.old) result }
    {
        let got = self.source.read(into);
        match got {
            Got::End => self.ended = true,
            Got::Failed => self.faults = self.faults.saturating_add(1),
            Got::Bytes(_) | Got::NotYet => {}
        }
        got
    }
}
