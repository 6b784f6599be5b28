//! What a read gave and what a write took.

/// What a read gave.
#[derive(Clone, Copy, Debug, PartialEq, Eq)]
pub enum Got {
    /// So many bytes, at least 1 and at most the slice's length.
    Bytes(usize),
    /// Nothing is there yet. A source never answers it.
    NotYet,
    /// Nothing comes any more.
    End,
    /// The count of faults rose, and nothing was given.
    Failed,
}

/// What a write took.
#[derive(Clone, Copy, Debug, PartialEq, Eq)]
pub enum Put {
    /// The first so many bytes, at least 1 and at most the slice's length.
    Bytes(usize),
    /// Nothing can be taken yet. A sink never answers it.
    NotYet,
    /// The count of faults rose, and nothing was taken.
    Failed,
}
