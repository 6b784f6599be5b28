//! Whether the bytes of a record are messages that went out spelled anew, whole or in part, or an own answer.
#![tactic(auto)]

mod answers;
mod body;
mod looks;
mod own;
mod prefix;
mod records;
mod requests;
mod texts;

pub use own::own_holds;
pub use records::{cut_holds, pass_holds};
