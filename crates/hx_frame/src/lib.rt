//! Where a body ends: its kind by the head, and its last byte in any cutting (RFC 9112, sections 6.3 and 7.1).
#![tactic(auto)]

mod body;
mod chunk;
mod close;
mod ends;
mod fields;
mod length;
mod meter;
mod progress;
mod read;
mod state;

pub use body::{body_of_answer, body_of_request};
pub use close::{persists, wants_close};
pub use ends::one_end;
pub use hx_message::{BodyKind, FrameFault, MethodKind};
pub use meter::Meter;
pub use progress::{Fed, MeterState};
