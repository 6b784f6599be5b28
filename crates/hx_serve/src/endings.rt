//! How serving ends.

use hx_startup::Ending;

/// How serving ended.
#[derive(Drop)]
pub(crate) enum Served {
    Ending(Ending),
    SinkFault,
}
