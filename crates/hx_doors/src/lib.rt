//! What a listening program meets besides links and nets: doors, which accept clients, and cabinets, which hold files.
//! Both are traits with counted faults, with an implementation in memory each.
#![tactic(auto)]

mod cabinet;
mod door;
mod memory_cabinet;
mod memory_door;
mod memory_file;

pub use cabinet::{Cabinet, NoFile};
pub use door::{Accepted, Door};
pub use memory_cabinet::MemoryCabinet;
pub use memory_door::MemoryDoor;
pub use memory_file::MemoryFile;
