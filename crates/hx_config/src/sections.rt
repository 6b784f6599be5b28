//! Sections, as far as they were read.

use crate::parts::{Back, Server};
use hx_base::{Address, Millis, Name, PoolRules};
use hx_config_parts::Growing;

/// The section in which a line stands.
#[derive(Clone, Copy, PartialEq, Eq, Debug)]
pub enum Kind {
    /// Before the first section.
    Nowhere,
    Global,
    Defaults,
    Frontend,
    Backend,
    Listen,
}

/// What the lines of a section set. A section begins with the values of the `defaults` before it.
#[derive(Drop)]
pub struct Values {
    /// `http-reuse` and the options of `default-server`.
    pub rules: PoolRules,
    /// `default_backend`; in a `listen` section its own name until such a line.
    pub back: Option<Name>,
    pub connect: Option<Millis>,
    pub server: Option<Millis>,
    pub client: Option<Millis>,
    pub keep_alive: Option<Millis>,
}

/// A section that is being read.
#[derive(Drop)]
pub struct Section {
    pub kind: Kind,
    /// Its first line.
    pub line: u32,
    pub name: Name,
    pub values: Values,
    pub binds: Growing<Address>,
    pub servers: Growing<Server>,
}

/// A frontend whose backend was not looked up yet.
#[derive(Drop)]
pub struct Frontend {
    pub line: u32,
    pub name: Name,
    pub binds: Growing<Address>,
    pub wants: Option<Name>,
    pub client: Option<Millis>,
    pub keep_alive: Option<Millis>,
}

/// A backend with its first line.
#[derive(Drop)]
pub struct Backend {
    pub line: u32,
    pub back: Back,
}
