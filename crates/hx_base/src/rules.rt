//! How a server's connections are used again.

use crate::numbers::Millis;

/// `http-reuse` (HAProxy 2.4 Configuration Manual, section 4.2): which requests may go over a connection that rests.
#[derive(Clone, Copy, PartialEq, Eq, Debug)]
pub enum Mode {
    /// Resting connections are never shared between sessions.
    Never,
    /// The first request of a session goes over a connection of its own.
    Safe,
    /// A first request goes only over a connection that was used again before.
    Aggressive,
    /// A first request goes over any.
    Always,
}

/// The pool settings of a server (HAProxy 2.4 Configuration Manual, sections 4.2 and 5.2).
#[derive(Clone, Copy, PartialEq, Eq, Debug)]
pub struct PoolRules {
    pub mode: Mode,
    /// `pool-max-conn`: how many connections may rest. None is no limit.
    pub max: Option<u32>,
    /// `pool-low-conn`: below so many resting connections a thread takes none of another thread.
    pub low: u32,
    /// `pool-purge-delay`: after each such interval half of the resting connections are closed. 0 keeps none.
    pub delay: Millis,
}
