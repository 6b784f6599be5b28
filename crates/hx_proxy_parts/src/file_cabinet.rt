//! The machine's files as a cabinet.
ghost use Rattle.std.specs.Prelude.{◌≡◌};
ghost use Rattle.hx_proxy_parts.specs.Files.{new_file_cabinet};

use crate::file_source::FileSource;
use hx_doors::{Cabinet, NoFile};
use std::fs;
use std::marker::Model;
use std::rt::Files;

/// Opens the files that it is asked for, by their paths. It tells no files.
#[derive(Drop)]
pub struct FileCabinet<R> {
    rt: R,
    faults: u64,
    /// The last file that came back had told its end.
    ended: bool,
}

impl<R> Model for FileCabinet<R> {
    ghost use Rattle.std.specs.Prelude.{None};
    ghost use Rattle.hx_doors.specs.Cabinets.{CabinetState};

    ghost Value = { CabinetState };

    ghost view = { λ c. record { faults = c.faults; files = None; told_end = c.ended } };
}

impl<R: Files> FileCabinet<R> {
    pub fn new(rt: R) -> FileCabinet<R>
        ensures begins { result ≡ new_file_cabinet }
    {
        FileCabinet {
            rt,
            faults: 0,
            ended: false,
        }
    }
}

impl<R: Files> Cabinet for FileCabinet<R> {
    type S = FileSource<R::File>;

    ghost state = { λ c. c };

    fn fetch(&mut self, name: &str) -> Result<FileSource<R::File>, NoFile> {
        match fs::open(&self.rt, name) {
            Ok(file) => Ok(FileSource::new(file)),
            Err(_) => {
                self.faults = self.faults.saturating_add(1);
                Err(NoFile)
            }
        }
    }

    fn give_back(&mut self, source: FileSource<R::File>) {
        if source.faults() > 0 {
            self.faults = self.faults.saturating_add(1);
        }
        self.ended = source.ended();
    }
}
