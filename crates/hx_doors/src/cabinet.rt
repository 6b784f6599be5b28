//! What holds files.

use hx_link::Source;

/// A cabinet has no such file, or failed. Its count of faults rose.
#[derive(Clone, Copy, Debug, PartialEq, Eq)]
pub struct NoFile;

/// Hands files out by their names, each to be read once.
pub trait Cabinet {
    ghost use Rattle.hx_doors.specs.Cabinets.{CabinetState, CabinetFetches, CabinetTakesBack};

    type S: Source + Drop;

    // Its count of faults, the files that it holds where it tells them, and whether the last one that came back had told
    // its end.
    ghost state: { Self → CabinetState };

    /// Hands out the first file of that name.
    ///
    /// # Errors
    /// `NoFile` where the cabinet has none or failed.
    fn fetch(&mut self, name: &str) -> Result<Self::S, NoFile>
        ensures fetches { CabinetFetches Self.S.state (state self.old) (state self.new) name.now result };

    /// Takes a file back. Its faults are the cabinet's.
    fn give_back(&mut self, source: Self::S)
        ensures gives_back { CabinetTakesBack (state self.old) (state self.new) (Self.S.state source) };
}
