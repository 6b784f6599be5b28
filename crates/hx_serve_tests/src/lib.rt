//! Tests over whole runs of the listening program.
#![tactic(auto)]

#[cfg(test)]
mod tests;
