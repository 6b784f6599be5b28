//! Why a head is refused.
ghost use Rattle.std.specs.Prelude.{◌≡◌};
ghost use Rattle.hx_head.specs.Causes.{code_of};

/// Why a head is refused. `HeadRead::Refused` has its number.
#[derive(Clone, Copy, Debug, PartialEq, Eq)]
pub enum Refusal {
    /// No bytes can follow that make a head.
    NotAHead,
    /// The first 16,384 bytes hold no whole head, and could still become one.
    TooLong,
    /// Whatever follows, a head has more than 100 fields.
    TooManyFields,
    /// The head of a request is one of HTTP/1.0.
    Version,
    /// The status of an answer is below 100.
    Status,
}

impl Refusal {
    /// The number that a caller sees.
    pub fn code(self) -> u8
        ensures { result ≡ code_of self }
    {
        match self {
            Refusal::NotAHead => 1,
            Refusal::TooLong => 2,
            Refusal::TooManyFields => 3,
            Refusal::Version => 4,
            Refusal::Status => 5,
        }
    }
}
