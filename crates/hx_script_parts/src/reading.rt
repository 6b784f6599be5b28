//! What was read so far.

use crate::moments::Moments;
use crate::script::ClientLine;
use hx_base::{Millis, Order, ServerNo, ThreadNo};
use hx_config_parts::Growing;
use hx_link::{Piece, Plan};

/// Whose link it is.
#[derive(Clone, Copy, PartialEq, Eq, Debug)]
pub enum Owner {
    /// A `client` line.
    Client {
        front: u16,
        worker: ThreadNo,
        moment: Millis,
    },
    /// A `server` line.
    Server {
        server: ServerNo,
        refuse: bool,
    },
}

/// The link of the last `client` or `server` line, with its lines so far.
#[derive(Drop)]
pub struct OpenLink {
    pub line: u32,
    pub owner: Owner,
    pub pieces: Growing<Piece>,
    pub end: Option<(Millis, u64)>,
    pub room: Option<u64>,
    pub fail: Option<u64>,
    /// The moment of its last piece, and 0 before.
    pub latest: Millis,
}

/// The links whose lines are over, the one that is open, and the rest.
#[derive(Drop)]
pub struct Reading {
    pub clients: Growing<ClientLine>,
    pub plans: Growing<Plan>,
    pub current: Option<OpenLink>,
    pub orders: Growing<(Millis, Order)>,
    pub moments: Moments,
}
