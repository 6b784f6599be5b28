//! The answers that the proxy gives itself (RFC 9110, section 15).
#![tactic(auto)]

mod own;

pub use own::own_answer;
