//! How many resting connections are to be closed.

/// The budget of one purge, and the place at which it goes on.
#[derive(Clone, Copy, PartialEq, Eq, Debug)]
pub struct Quota {
    /// How many connections are still to be closed.
    pub left: u64,
    /// The row of the next place.
    pub row: u8,
    /// The next place in that row.
    pub place: u8,
    /// How many places were passed.
    pub seen: u32,
}
