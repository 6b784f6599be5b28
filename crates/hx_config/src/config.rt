//! What a configuration says.
ghost use Rattle.std.specs.Prelude.{◌≡◌, slice_get};
ghost use Rattle.std.specs.Option.{option_map};
ghost use Rattle.hx_config.specs.Limits.{IsWithin, all_servers};

use crate::parts::{Back, Front, Server};
use hx_base::{Items, ServerNo};

/// A configuration. It has 1 to 16 threads, at most 16 frontends with at most 16 addresses each, at most 16
/// backends and at most 32 servers, which are numbered from 0 in order over all backends. Each frontend's backend
/// is there and has a server.
#[derive(Drop)]
pub struct Config {
    /// `nbthread`: from 1 to 16.
    pub threads: u8,
    pub fronts: Items<Front>,
    pub backs: Items<Back>,
    /// The lines that have no effect here, counted from 1, each once and rising.
    pub passed_over: Items<u32>,
    pub ghost within: { IsWithin threads fronts backs },
}

impl Config {
    /// The server of this number, counted from 0 in order over all backends.
    pub fn server(&self, no: ServerNo) -> Option<&Server>
        ensures { option_map (λ s. s.now) result ≡ slice_get (all_servers self.now.backs) no.0 }
    {
        let mut at = no.0 as usize;
        for back in self.backs.as_slice() {
            let servers = back.servers.as_slice();
            if at < servers.len() {
                return Some(&servers[at]);
            }
            at -= servers.len();
        }
        None
    }
}
