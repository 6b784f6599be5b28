//! Tests over the public calls of workers.
#![tactic(auto)]

#[cfg(test)]
mod tests;
