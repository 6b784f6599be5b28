//! A meter, which finds the end of a body that comes in pieces (RFC 9112, sections 6.3 and 7.1).
ghost use Rattle.std.specs.Prelude.{◌≡◌, IsTrue};
ghost use Rattle.hx_frame.specs.States.{has_small_size};

use crate::progress::{Fed, MeterState};
use crate::read::{progress, read_body, start_of};
use crate::state::BodyState;
use hx_message::BodyKind;

/// Finds the end of one body, by its kind. It keeps no byte.
#[derive(Drop)]
pub struct Meter {
    state: BodyState,
    ghost small: { IsTrue (has_small_size state) },
}

impl Meter {
    ghost use Rattle.std.specs.Prelude.{◌↔◌, ◌≤◌, ℕ, List, [], ◌++◌, length, take};
    ghost use Rattle.hx_message.specs.declared.BodyKind.TheVariants.{ToEnd};
    ghost use Rattle.hx_frame.specs.declared.progress.MeterState.TheVariants.{Bad};
    ghost use Rattle.hx_frame.specs.Meters.{state_of, HasUsed, FeedSays};

    /// A meter at the front of a body. One of Nothing or Length(0) is Done.
    pub fn new(kind: BodyKind) -> Meter
        ensures used { HasUsed kind [] result }
        ensures good { state_of result ≡ Bad → ⊥ }
    {
        Meter {
            state: start_of(kind),
        }
    }

    /// How far the body has come: what a feed of nothing would tell.
    pub fn state(&self) -> MeterState
        ensures { result ≡ state_of self.now }
    {
        progress(self.state)
    }

    /// Reads on in the body, up to its end or to the first byte after which no body follows. After Done and Bad it
    /// uses nothing.
    pub fn feed(&mut self, piece: &[u8]) -> Fed
        ensures state { result.state ≡ state_of self.new }
        ensures nothing { piece.now ≡ [] → result.state ≡ state_of self.old }
        ensures within { result.used ≤ length piece.now }
        ensures used { (kind : BodyKind) (before : List ℕ) → HasUsed kind before self.old
            → HasUsed kind (before ++ take result.used piece.now) self.new }
        ensures says { (kind : BodyKind) (before : List ℕ) → HasUsed kind before self.old
            → FeedSays kind (state_of self.old) result.state before piece.now result.used }
    {
        let read = read_body(self.state, piece);
        self.state = read.state;
        Fed {
            used: read.used,
            state: progress(read.state),
        }
    }

    /// Whether the body runs to the end of the connection.
    pub fn at_end(&self) -> bool
        ensures { (kind : BodyKind) (used : List ℕ) → HasUsed kind used self.now
            → IsTrue result ↔ (kind ≡ ToEnd) }
    {
        matches!(self.state, BodyState::All)
    }
}
