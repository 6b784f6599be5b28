//! Why a connection was not parked, or not taken over.

/// Why a value was not parked. The causes are tested in this order.
#[derive(Clone, Copy, PartialEq, Eq, Debug)]
pub enum NoPark {
    /// The mode shares nothing.
    Never,
    /// The greatest number is 0, or the purge delay is.
    NoneKept,
    /// Each of the thread's 64 places was looked at, and is taken.
    RowFull,
    /// The server drains.
    Draining,
    /// The count was this, and is at least the greatest number.
    PoolFull(u64),
}

/// The value that was handed in, and why it was not parked.
#[derive(Drop)]
pub struct Unparked<V> {
    pub v: V,
    pub why: NoPark,
}

/// Why no connection of another thread was taken. The causes are tested in this order.
#[derive(Clone, Copy, PartialEq, Eq, Debug)]
pub enum NoneOver {
    /// The mode allows nothing to this request.
    NotAllowed,
    /// The count was this, and is below `pool-low-conn`.
    BelowLow(u64),
    /// Nothing that the request may take was found in the other rows.
    NoneSeen,
}
