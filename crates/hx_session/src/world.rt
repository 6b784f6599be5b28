//! What a step of a session works with.

use crate::step::Waiting;
use hx_base::Millis;
use hx_config::{Back, Config, Front};

/// The configuration, and the session's frontend and backend in it, at a moment, and for which link the step had to wait so far.
#[derive(Clone, Copy)]
pub(crate) struct Scene<'a> {
    pub config: &'a Config,
    pub front: &'a Front,
    pub back: &'a Back,
    pub now: Millis,
    pub waits: Waiting,
}
