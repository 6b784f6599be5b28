//! What is to be served.
ghost use Rattle.hx_config.specs.Limits.{HasThreads};

use hx_config::Config;

/// What is to be served.
#[derive(Drop)]
pub struct Plan {
    pub config: Config,
    /// From 1 to 16: those that the words ask for, else the configuration's.
    pub threads: u8,
    pub ghost threads_in: { HasThreads threads },
}
