//! Tests over the public calls of pools.
#![tactic(auto)]

#[cfg(test)]
mod tests;
