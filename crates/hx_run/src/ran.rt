//! What a replay leaves.

use crate::seats::RunSeat;
use hx_base::Items;
use hx_config::Config;
use hx_link::MemoryNet;
use hx_record::Told;

/// What a replay leaves, once all its sessions were stopped and each server was drained.
#[derive(Drop)]
pub struct Ran {
    pub config: Config,
    /// What the sessions told, in order.
    pub records: Items<Told>,
    /// By server, each with the marks of its whole history.
    pub seats: Items<RunSeat>,
    /// It keeps the links that were buried, in the order of their burials.
    pub net: MemoryNet,
}
