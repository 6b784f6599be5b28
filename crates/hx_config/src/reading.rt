//! What was read so far.

use crate::sections::{Backend, Frontend, Section, Values};
use hx_config_parts::Growing;

/// The sections that have ended, and the one that is open.
#[derive(Drop)]
pub struct Reading {
    pub threads: u8,
    /// The values with which the next sections begin.
    pub defaults: Values,
    pub current: Section,
    pub fronts: Growing<Frontend>,
    pub backs: Growing<Backend>,
    /// How many servers stand in all backends.
    pub servers: u16,
    pub passed_over: Growing<u32>,
}
