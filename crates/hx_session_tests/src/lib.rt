//! Tests over the public calls of sessions.
#![tactic(auto)]

#[cfg(test)]
mod tests;
