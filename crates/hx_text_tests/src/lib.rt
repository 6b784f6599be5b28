//! Tests over the public calls of configurations, scripts and transcripts.
#![tactic(auto)]

#[cfg(test)]
mod tests;
