//! What a meter tells of a body.

/// How far a body has come.
#[derive(Clone, Copy, Debug, PartialEq, Eq)]
pub enum MeterState {
    /// The body has not ended. One that runs to the end of the connection never leaves this state.
    Going,
    Done,
    /// No body can follow.
    Bad,
}

/// What a meter made of a piece.
#[derive(Clone, Copy, Debug, PartialEq, Eq)]
pub struct Fed {
    /// How many bytes of the piece belong to the body. In the call that comes to Bad these are the bytes before the
    /// one that made it Bad.
    pub used: usize,
    pub state: MeterState,
}
