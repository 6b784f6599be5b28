//! The word that shows the state of a place.
ghost use Rattle.std.specs.Prelude.{◌≡◌, ◌≢◌, Some, IfSome, IfNone};
ghost use Rattle.hx_base.specs.PlaceWords.{place_word, IsPlaceState};

use crate::numbers::{ConnId, Face, ThreadNo};

/// What stands at a place of a board that threads share.
#[derive(Clone, Copy, PartialEq, Eq, Debug)]
pub enum PlaceState {
    Vacant,
    /// Its row's thread is putting a connection there.
    Filling,
    Resting(Face),
    /// This thread took the connection, and has not freed the place yet.
    Taken(ThreadNo),
}

const FILLING: u64 = 1 << 62;

const RESTING: u64 = 2 << 62;

const TAKEN: u64 = 3 << 62;

/// How many words there are for one connection, one for each count of uses.
const USES: u64 = 1 << 16;

/// Connections have lower numbers.
const IDS: u64 = 1 << 40;

/// Threads have lower numbers.
const THREADS: u64 = 16;

/// The word of a state. Two states have two words.
pub fn pack_place(state: PlaceState) -> u64
    requires state { IsPlaceState state }
    ensures word { result ≡ place_word state }
{
    match state {
        PlaceState::Vacant => 0,
        PlaceState::Filling => FILLING,
        PlaceState::Resting(face) => RESTING + face.id.0 * USES + u64::from(face.uses),
        PlaceState::Taken(thread) => TAKEN + u64::from(thread.0),
    }
}

/// The state of a word, or None where no state has it.
pub fn unpack_place(word: u64) -> Option<PlaceState>
    ensures some { IfSome result (λ s. IsPlaceState s × (place_word s ≡ word)) }
    ensures none { IfNone result ((s : PlaceState) → IsPlaceState s → place_word s ≢ word) }
    ensures back { (s : PlaceState) → IsPlaceState s → place_word s ≡ word → result ≡ Some s }
{
    if word == 0 {
        return Some(PlaceState::Vacant);
    }
    if word == FILLING {
        return Some(PlaceState::Filling);
    }
    if word >= TAKEN {
        let thread = word - TAKEN;
        if thread < THREADS {
            return Some(PlaceState::Taken(ThreadNo(thread as u8)));
        }
    } else if word >= RESTING {
        let id = (word - RESTING) / USES;
        let uses = (word - RESTING) % USES;
        if id > 0 && id < IDS && uses > 0 {
            return Some(PlaceState::Resting(Face {
                id: ConnId(id),
                uses: uses as u16,
            }));
        }
    }
    None
}
