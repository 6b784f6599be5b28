//! What holds sessions up.
ghost use Rattle.std.specs.Prelude.{◌≡◌, true, false};

/// Says which sessions may be answered yet. A server's link gives the first answer of a session only where this is so.
pub trait Turnstile {
    ghost use Rattle.std.specs.Prelude.{Bool, ℕ};

    // Whether it shuts the session of that number: then it is never answered.
    ghost shuts: { Self → ℕ → Bool };

    // Whether it may hold the session of that number for a time.
    ghost holds: { Self → ℕ → Bool };

    /// Whether the session of that number, counted from 0, may be answered now.
    fn may_answer(&self, session: u32) -> bool
        ensures shut { shuts self.now session ≡ true → result ≡ false }
        ensures held { result ≡ false → holds self.now session ≡ true };
}

/// Holds no session.
#[derive(Clone, Copy, Drop, PartialEq, Eq, Debug)]
pub struct FreeGate;

impl Turnstile for FreeGate {
    ghost shuts = { λ _ _. false };

    ghost holds = { λ _ _. false };

    fn may_answer(&self, _session: u32) -> bool {
        true
    }
}
