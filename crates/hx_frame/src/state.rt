//! How far a body was read.

/// What was read of a body in chunks. A room tells how many bytes of the same kind may follow.
#[derive(Clone, Copy)]
pub(crate) enum ChunkState {
    /// At the front of a size line.
    Start,
    /// Behind digits of a size, with its value, and the room for further digits.
    Size(u64, u8),
    /// In the extension behind a size, with the size and the room.
    Extension(u64, u16),
    /// Behind the CR of a size line.
    SizeEnd(u64),
    /// So many bytes of data are left, and CR LF.
    Data(u64),
    /// Behind the CR of a chunk's data.
    DataEnd,
    /// At the front of a trailer line, with the room of the section.
    TrailerStart(u16),
    /// In a trailer line.
    Trailer(u16),
    /// Behind the CR of a trailer line.
    TrailerEnd(u16),
    /// Behind the CR of the empty line.
    LastEnd,
    Done,
    Bad,
}

/// How far a piece was read.
#[derive(Clone, Copy)]
pub(crate) struct ChunksRead {
    pub used: usize,
    pub state: ChunkState,
}

/// How far a body was read.
#[derive(Clone, Copy)]
pub(crate) enum BodyState {
    /// So many bytes are left.
    Bytes(u64),
    Chunks(ChunkState),
    /// All bytes to the end of the connection are left.
    All,
}
