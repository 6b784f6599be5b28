//! Addresses of the network.

/// Where to connect or to listen.
#[derive(Clone, Copy, PartialEq, Eq, Debug)]
pub enum Host {
    /// Each address of this machine.
    Any,
    /// An IPv4 address.
    V4(u8, u8, u8, u8),
    /// `localhost`.
    Local,
}

#[derive(Clone, Copy, PartialEq, Eq, Debug)]
pub struct Address {
    pub host: Host,
    /// At least 1.
    pub port: u16,
}
