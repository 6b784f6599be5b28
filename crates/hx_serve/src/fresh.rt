//! Seats at which nothing has happened.
ghost use Rattle.hx_serve.specs.Begins.{BeginsFor};

use hx_base::{Faced, PoolRules, ServerNo, ThreadNo};
use hx_purge::SlotSeat;

/// A seat before its first call, with its thread, its server and that server's rules.
#[derive(Drop)]
pub(crate) struct Fresh<'a, V: Faced> {
    pub seat: SlotSeat<'a, V>,
    pub thread: ThreadNo,
    pub server: ServerNo,
    pub rules: PoolRules,
    pub ghost begins: { BeginsFor thread server rules seat.history },
}
