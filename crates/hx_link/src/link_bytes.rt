//! The bytes of a link at the end of its run.
ghost use Rattle.std.specs.Prelude.{◌≡◌, ◌≤◌, ◌++◌, length, take, IfOk};
ghost use Rattle.hx_link.specs.Planned.{planned};

use hx_base::{Bytes, Items, NoMemory, Piece};

/// All bytes that were sent on a link, and all that were taken of it.
#[derive(Drop)]
pub struct LinkBytes {
    pub sent: Bytes,
    pub taken: Bytes,
    /// It told its end.
    pub ended: bool,
}

/// The first bytes of the pieces. It takes memory only where they stand in more than one piece.
pub fn join_pieces(pieces: Items<Piece>, count: usize) -> Result<Bytes, NoMemory>
    requires within { count ≤ length (planned pieces) }
    ensures joined { IfOk result (λ bytes. bytes ≡ take count (planned pieces)) }
{
    let mut joined = Vec::new(pieces.allocator());
    for piece in pieces.into_vec() {
        if joined.len() < count {
            joined = append(joined, piece.bytes)?;
        }
    }
    joined.truncate(count);
    Ok(Bytes::from_vec(joined))
}

/// Both in order. It takes memory only where neither is empty.
fn append(front: Vec<u8>, back: Bytes) -> Result<Vec<u8>, NoMemory>
    ensures both { IfOk result (λ bytes. bytes.items ≡ front.items ++ back) }
{
    if front.is_empty() {
        return Ok(back.into_vec());
    }
    let mut front = front;
    front.extend_from_slice(back.as_slice())?;
    Ok(front)
}
