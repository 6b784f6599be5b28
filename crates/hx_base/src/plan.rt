//! What a link in memory gives and takes.

use crate::items::{Bytes, Items};
use crate::numbers::{Millis, ServerNo};

/// Bytes that are there once the moment has come, so many bytes were sent on the link, and the
/// pieces before were taken.
#[derive(Drop)]
pub struct Piece {
    pub at: Millis,
    pub after: u64,
    pub bytes: Bytes,
}

/// What the lines of a script say of one link.
#[derive(Drop)]
pub struct Plan {
    /// The script's line, which is the link's tag.
    pub line: u32,
    /// A client's plan has none.
    pub server: Option<ServerNo>,
    /// The dial fails.
    pub refuse: bool,
    pub pieces: Items<Piece>,
    /// The link ends once the moment has come, so many bytes were sent and all pieces were taken.
    pub end: Option<(Millis, u64)>,
    /// The most bytes that one write takes.
    pub room: Option<u64>,
    /// The first read or write that fails, counted from 1. All later ones fail too.
    pub fail: Option<u64>,
}
