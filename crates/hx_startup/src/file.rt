//! The file of the configuration.
ghost use Rattle.std.specs.Prelude.{◌≡◌, IfOk, IsErrOf};
ghost use Rattle.hx_base.specs.Counts.{Rose};
ghost use Rattle.hx_startup.specs.Files.{ReadsFile};

use hx_doors::Cabinet;
use hx_link::{ReadFault, read_all};
use std::alloc::Global;

/// The most bytes of a configuration.
const MOST_BYTES: usize = 262_144;

/// Why a file was not read.
#[derive(Clone, Copy, Debug, PartialEq, Eq)]
pub enum FileFault {
    /// There is none of that name, or it failed.
    Fault,
    NoMemory,
}

/// The bytes of the file of that name, up to one past the most that a configuration has. The file is given back.
///
/// # Errors
/// `Fault` where the cabinet has no such file or the file failed, `NoMemory` for want of memory.
pub fn read_file<F: Cabinet>(
    alloc: Global,
    cabinet: &mut F,
    name: &str,
) -> Result<Vec<u8>, FileFault>
    ensures reads { IfOk result (λ bytes. ReadsFile name.now (F.state cabinet.old) (F.state cabinet.new) bytes.items) }
    ensures faulted { IsErrOf result FileFault.Fault → Rose (F.state cabinet.old).faults (F.state cabinet.new).faults }
{
    let Ok(file) = cabinet.fetch(name) else {
        return Err(FileFault::Fault);
    };
    let mut file = file;
    let read = read_all(alloc, &mut file, MOST_BYTES);
    cabinet.give_back(file);
    match read {
        Ok(bytes) => Ok(bytes),
        Err(ReadFault::Fault) => Err(FileFault::Fault),
        Err(ReadFault::NoMemory) => Err(FileFault::NoMemory),
    }
}
