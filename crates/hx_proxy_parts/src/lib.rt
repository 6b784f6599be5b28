//! The outside of a listening program as the machine has it: sockets, files and the clock.
#![tactic(auto)]

mod crossing;
mod file_cabinet;
mod file_source;
mod machine_clock;
mod reports;
mod sock_door;
mod sock_link;
mod sock_net;

pub use crossing::{all_cross, clock_is_shared};
pub use file_cabinet::FileCabinet;
pub use file_source::FileSource;
pub use machine_clock::MachineClock;
pub use sock_door::SockDoor;
pub use sock_link::SockLink;
pub use sock_net::SockNet;
