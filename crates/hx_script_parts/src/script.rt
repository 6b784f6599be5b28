//! What a script says.
ghost use Rattle.hx_config.specs.Views as config_view;
ghost use Rattle.hx_script_parts.specs.Limits.{IsWithin};

use hx_base::{Items, Millis, Order, ThreadNo};
use hx_config::Config;
use hx_link::Plan;

/// A `client` line with the lines of its link.
#[derive(Drop)]
pub struct ClientLine {
    /// The place of its frontend in the configuration.
    pub front: u16,
    /// Below the configuration's threads.
    pub worker: ThreadNo,
    /// When the client is admitted.
    pub moment: Millis,
    pub plan: Plan,
}

/// A script, each list in the order of its lines. It has at most 1,000 clients and 4,096 plans. The frontends and
/// workers of its clients, and the servers of its plans and orders, are those of the configuration, and `room` and `fail` are at least 1.
/// Its links have at most 1,048,576 bytes, the greatest length of a script.
#[derive(Drop)]
pub struct Script {
    pub config: Config,
    pub clients: Items<ClientLine>,
    /// The links of the `server` lines.
    pub plans: Items<Plan>,
    /// The `drain` and `ready` lines with their moments.
    pub orders: Items<(Millis, Order)>,
    /// The moments of all lines and 0, each once and rising.
    pub moments: Items<Millis>,
    pub ghost within: { IsWithin (config_view.meaning config) clients plans orders moments },
}
