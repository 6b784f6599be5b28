//! Reading of a body, piece by piece.
ghost use Rattle.std.specs.Prelude.{◌≡◌, ◌<◌, ◌≤◌, ◌⊎◌, IsTrue, true, false, [], length, drop, min};
ghost use Rattle.hx_frame.specs.Chunks as machine;
ghost use Rattle.hx_frame.specs.States.{state_at_front, progress_of, has_small_size, LeadsOn};

use crate::progress::MeterState;
use crate::state::{BodyState, ChunkState, ChunksRead};
use hx_message::BodyKind;

/// How far a piece was read.
#[derive(Clone, Copy)]
pub(crate) struct BodyRead {
    pub used: usize,
    pub state: BodyState,
}

pub(crate) fn start_of(kind: BodyKind) -> BodyState
    ensures front { result ≡ state_at_front kind }
    ensures small { IsTrue (has_small_size result) }
{
    match kind {
        BodyKind::Nothing => BodyState::Bytes(0),
        BodyKind::Length(length) => BodyState::Bytes(length),
        BodyKind::Chunked => BodyState::Chunks(ChunkState::Start),
        BodyKind::ToEnd => BodyState::All,
    }
}

fn is_over(state: ChunkState) -> bool
    ensures { result ≡ machine.is_over state }
{
    matches!(state, ChunkState::Done | ChunkState::Bad)
}

fn is_bad(state: ChunkState) -> bool
    ensures { result ≡ machine.is_bad state }
{
    matches!(state, ChunkState::Bad)
}

/// What is told of that state.
pub(crate) fn progress(state: BodyState) -> MeterState
    ensures { result ≡ progress_of state }
{
    match state {
        BodyState::Bytes(0) => MeterState::Done,
        BodyState::Bytes(_) | BodyState::All => MeterState::Going,
        BodyState::Chunks(state) => {
            if is_bad(state) {
                MeterState::Bad
            } else if is_over(state) {
                MeterState::Done
            } else {
                MeterState::Going
            }
        }
    }
}

/// The lesser of a count of bytes that are left and of those that are there.
fn least(left: u64, there: usize) -> usize
    ensures { result ≡ min left there }
{
    if left < there as u64 {
        left as usize
    } else {
        there
    }
}

/// Passes over data by its count, and over any other byte one at a time.
fn read_some(state: ChunkState, piece: &[u8]) -> ChunksRead
    requires small { IsTrue (machine.is_small state) }
    requires some { 0 < length piece.now }
    requires open { machine.is_over state ≡ false }
    ensures small { IsTrue (machine.is_small result.state) }
    ensures within { result.used ≤ length piece.now }
    ensures read { machine.read_chunks state piece.now ≡ machine.used_before result.used
        (machine.read_chunks result.state (drop result.used piece.now)) }
    ensures moves { (0 < result.used) ⊎ (machine.is_over result.state ≡ true) }
{
    if let ChunkState::Data(left) = state
        && left > 0
    {
        let used = least(left, piece.len());
        return ChunksRead {
            used,
            state: ChunkState::Data(left - used as u64),
        };
    }
    let next = state.after(piece[0]);
    ChunksRead {
        used: if is_bad(next) { 0 } else { 1 },
        state: next,
    }
}

/// Reads up to the end of the body or to the first bad byte.
fn read_chunks(state: ChunkState, piece: &[u8]) -> ChunksRead
    requires { IsTrue (machine.is_small state) }
    ensures small { IsTrue (machine.is_small result.state) }
    ensures read { result ≡ machine.read_chunks state piece.now }
{
    let mut read = ChunksRead { used: 0, state };
    while read.used < piece.len() && !is_over(read.state) {
        let next = read_some(read.state, &piece[read.used..]);
        read = ChunksRead {
            used: read.used + next.used,
            state: next.state,
        };
    }
    read
}

/// Reads on in a body.
pub(crate) fn read_body(state: BodyState, piece: &[u8]) -> BodyRead
    requires { IsTrue (has_small_size state) }
    ensures small { IsTrue (has_small_size result.state) }
    ensures leads { LeadsOn state piece.now result.used result.state }
    ensures nothing { piece.now ≡ [] → result.state ≡ state }
{
    match state {
        BodyState::Bytes(left) => {
            let used = least(left, piece.len());
            BodyRead {
                used,
                state: BodyState::Bytes(left - used as u64),
            }
        }
        BodyState::Chunks(state) => {
            let read = read_chunks(state, piece);
            BodyRead {
                used: read.used,
                state: BodyState::Chunks(read.state),
            }
        }
        BodyState::All => BodyRead {
            used: piece.len(),
            state: BodyState::All,
        },
    }
}
