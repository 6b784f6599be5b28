//! A file of the machine as a source.
ghost use Rattle.std.specs.Prelude.{◌≡◌};
ghost use Rattle.hx_proxy_parts.specs.Files.{new_file};

use hx_link::{Got, Source};
use std::io::Read;
use std::marker::Model;

/// Reads a file. It tells no bytes, and remembers how often it failed and whether it told its end.
#[derive(Drop)]
pub struct FileSource<F> {
    file: F,
    faults: u64,
    ended: bool,
}

impl<F> Model for FileSource<F> {
    ghost use Rattle.std.specs.Prelude.{None};
    ghost use Rattle.hx_link.specs.Told.{SourceState};

    ghost Value = { SourceState };

    ghost view = { λ s. record { faults = s.faults; left = None; told_end = s.ended } };
}

impl<F: Read> FileSource<F> {
    pub(crate) fn new(file: F) -> FileSource<F>
        ensures { result ≡ new_file }
    {
        FileSource {
            file,
            faults: 0,
            ended: false,
        }
    }

    /// How often it failed.
    pub(crate) fn faults(&self) -> u64
        ensures { result ≡ self.now.faults }
    {
        self.faults
    }

    /// Whether it told its end.
    pub(crate) fn ended(&self) -> bool
        ensures { result ≡ self.now.told_end }
    {
        self.ended
    }
}

impl<F: Read> Source for FileSource<F> {
    ghost state = { λ s. s };

    fn read(&mut self, into: &mut [u8]) -> Got {
        if self.ended {
            return Got::End;
        }
        match self.file.read(into) {
            Ok(0) => {
                self.ended = true;
                Got::End
            }
            Ok(n) => Got::Bytes(n),
            Err(_) => {
                self.faults = self.faults.saturating_add(1);
                Got::Failed
            }
        }
    }
}
