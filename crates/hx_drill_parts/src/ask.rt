//! A request of the load.

/// A request that a session makes.
#[derive(Clone, Copy, PartialEq, Eq, Debug)]
pub struct Ask {
    /// Counted from 0.
    pub session: u32,
    /// Which request of its session it is, counted from 0.
    pub number: u32,
    /// The length of the body for which it asks.
    pub size: u32,
}
