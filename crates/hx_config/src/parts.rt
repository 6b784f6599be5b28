//! The parts of a configuration.

use hx_base::{Address, Items, Millis, Name, PoolRules, ServerNo};

/// A `server` line.
#[derive(Drop)]
pub struct Server {
    pub name: Name,
    /// Counted from 0 over all backends, in the order of the text.
    pub no: ServerNo,
    pub address: Address,
    pub rules: PoolRules,
}

/// A `backend` section, or that half of a `listen` section.
#[derive(Drop)]
pub struct Back {
    pub name: Name,
    pub servers: Items<Server>,
    /// `timeout connect`.
    pub connect: Option<Millis>,
    /// `timeout server`.
    pub server: Option<Millis>,
}

/// A `frontend` section, or that half of a `listen` section.
#[derive(Drop)]
pub struct Front {
    pub name: Name,
    pub binds: Items<Address>,
    /// The place of its backend in the list of backends, which has a server.
    pub back: u16,
    /// `timeout client`.
    pub client: Option<Millis>,
    /// `timeout http-keep-alive`.
    pub keep_alive: Option<Millis>,
}
