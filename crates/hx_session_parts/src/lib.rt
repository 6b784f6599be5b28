//! Messages on their way through a session's pipes: heads are read and spelled anew, bodies pass byte for byte.
#![tactic(auto)]

mod answers;
mod asks;
mod bodies;
mod fault;
mod on_way;

pub use answers::{AnswerLook, Answered, look_answer, spell_answer};
pub use asks::{AskLook, Asked, asked_at, look_ask, spell_ask};
pub use bodies::pass_body;
pub use fault::AskFault;
pub use on_way::{answers_pass_whole, requests_pass_whole};
