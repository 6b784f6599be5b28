//! A cabinet in memory.
ghost use Rattle.std.specs.Prelude.{◌≡◌, ◌<◌, All, take, drop, length, slice_index_or, MatchOption, IfSome};
ghost use Rattle.std.specs.Bool.{Decides};
ghost use Rattle.hx_doors.specs.Cabinets.{NamesOther, CountsFaults};
ghost use Rattle.hx_doors.specs.MemoryCabinets.{IsUnread, new_cabinet, MemoryFetches};

use crate::cabinet::{Cabinet, NoFile};
use crate::memory_file::MemoryFile;
use hx_base::Name;
use hx_link::MemorySource;
use std::marker::Model;

/// Hands each file out once.
#[derive(Drop)]
pub struct MemoryCabinet {
    /// Those that weren't handed out yet.
    files: Vec<(Name, MemorySource)>,
    faults: u64,
    /// The last file that came back had told its end.
    ended: bool,
}

impl Model for MemoryCabinet {
    ghost use Rattle.hx_doors.specs.MemoryCabinets.{MemoryCabinetNow};

    ghost Value = { MemoryCabinetNow };

    ghost use Rattle.hx_doors.specs.MemoryCabinetView.{cabinet_view, IsCabinet};

    ghost view = { cabinet_view };

    ghost invariant = { IsCabinet };
}

impl MemoryCabinet {
    /// It takes no memory.
    pub fn new(files: Vec<(Name, MemorySource)>) -> MemoryCabinet
        requires unread { All (λ f. IsUnread f.1) files.items }
        ensures begins { result ≡ new_cabinet files.items }
    {
        MemoryCabinet {
            files,
            faults: 0,
            ended: false,
        }
    }
}

/// Whether the file has that name.
fn has_name(file: &(Name, MemorySource), name: &str) -> bool
    ensures { Decides result (file.now.0 ≡ name.now) }
{
    file.0.as_slice() == name.as_bytes()
}

/// Where the first file of that name stands.
fn find_file(files: &[(Name, MemorySource)], name: &str) -> Option<usize>
    ensures within { IfSome result (λ i. i < length files.now) }
    ensures named { IfSome result (λ i. (f : _) → (slice_index_or files.now i f).0 ≡ name.now) }
    ensures earlier { MatchOption result
        (All (NamesOther name.now) files.now)
        (λ i. All (NamesOther name.now) (take i files.now)) }
{
    for (i, file) in files.iter().enumerate() {
        if has_name(file, name) {
            return Some(i);
        }
    }
    None
}

/// The cabinet's count of faults after a file with so many came back.
fn counted(faults: u64, of_file: u64) -> u64
    ensures { CountsFaults of_file faults result }
{
    if of_file > 0 {
        faults.saturating_add(1)
    } else {
        faults
    }
}

impl Cabinet for MemoryCabinet {
    ghost use Rattle.hx_link.specs.MemorySources.{MemorySourceNow};
    ghost use Rattle.hx_doors.specs.Cabinets.{CabinetFetches, CabinetTakesBack};
    ghost use Rattle.hx_doors.specs.MemoryCabinets.{source_told};

    type S = MemoryFile;

    ghost state = { λ c. c.state };

    fn fetch(&mut self, name: &str) -> Result<MemoryFile, NoFile>
        ensures fetches { CabinetFetches source_told self.old.state self.new.state name.now result }
        ensures answers { MemoryFetches self.old self.new name.now result }
    {
        match find_file(self.files.as_slice(), name) {
            Some(i) => {
                let (_, source) = self.files.remove(i);
                Ok(MemoryFile::new(source))
            }
            None => {
                self.faults = self.faults.saturating_add(1);
                Err(NoFile)
            }
        }
    }

    fn give_back(&mut self, source: MemoryFile)
        ensures gives_back { CabinetTakesBack self.old.state self.new.state source.state }
        ensures files { self.new.files ≡ self.old.files }
    {
        self.faults = counted(self.faults, source.faults());
        self.ended = source.ended();
    }
}
