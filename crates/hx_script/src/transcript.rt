//! What a replay tells.
ghost use Rattle.hx_script.specs.PrintedForm.{HasPrintedForm};

use hx_base::{Items, Name, PoolRules, Totals};
use hx_pool::Entry;
use hx_record::{ClientBytes, ConnBytes, Told};

/// A server: its names, its pool's rules, and the marks of its history in order.
#[derive(Drop)]
pub struct ServerPart {
    pub back: Name,
    pub server: Name,
    pub rules: PoolRules,
    pub marks: Items<Entry>,
}

/// All that a replay tells. Servers are numbered by their parts.
#[derive(Drop)]
pub struct Transcript {
    pub servers: Items<ServerPart>,
    pub records: Items<Told>,
    pub clients: Items<ClientBytes>,
    pub conns: Items<ConnBytes>,
    pub totals: Items<Totals>,
    ghost form: { ∥ HasPrintedForm servers records clients conns totals ∥₁ },
}
