//! The outside as traits with counted faults and waits, and its implementations in memory.
#![tactic(auto)]

mod adapters;
mod answers;
mod clock;
mod link;
mod link_bytes;
mod memory_link;
mod memory_net;
mod memory_sink;
mod memory_source;
mod moves;
mod net;
mod next_plan;
mod pipe;
mod place;
mod source;
mod whole;

pub use adapters::{Reading, Writing};
pub use answers::{Got, Put};
pub use clock::{Clock, StillClock};
pub use hx_base::{Piece, Plan};
pub use link::Link;
pub use link_bytes::LinkBytes;
pub use memory_link::MemoryLink;
pub use memory_net::MemoryNet;
pub use memory_sink::MemorySink;
pub use memory_source::MemorySource;
pub use moves::{read_into, write_from};
pub use net::{Net, NetFault};
pub use pipe::Pipe;
pub use source::{Sink, Source};
pub use whole::{ReadFault, WriteFault, read_all, write_all};
