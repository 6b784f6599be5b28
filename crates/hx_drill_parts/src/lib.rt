//! The parts of a load test over links in memory: the load that is generated, and the links and the net that mirror it.
#![tactic(auto)]

mod ask;
mod counts;
mod gate;
mod heard;
mod laws;
mod load;
mod mirror_link;
mod mirror_net;
mod text;

pub use ask::Ask;
pub use gate::{FreeGate, Turnstile};
pub use laws::samples;
pub use load::{DrillFault, DrillSum, Load};
pub use mirror_link::MirrorLink;
pub use mirror_net::MirrorNet;
pub use text::{answers_of, requests_of};
