//! Tests over the public calls of messages, links and connections.
#![tactic(auto)]

#[cfg(test)]
mod tests;
