//! Heads of messages: read with the crate httparse within fixed limits, and spelled anew as they go out.
#![tactic(auto)]

mod answer;
mod copy;
mod forward;
mod head;
mod lines;
mod named;
mod options;
mod refusal;
mod request;
mod staying;

pub use answer::read_answer;
pub use copy::part;
pub use forward::{NoRoom, forward_answer, forward_request};
pub use head::{AnswerHead, FieldSpan, HeadRead, RequestHead};
pub use hx_message::MethodKind;
pub use options::{has_option, is_same_name};
pub use refusal::Refusal;
pub use request::read_request;
