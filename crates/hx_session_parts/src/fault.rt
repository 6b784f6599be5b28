//! Why a request is answered by the proxy itself.
ghost use Rattle.std.specs.Prelude.{◌≡◌};
ghost use Rattle.hx_session_parts.specs.Asks.{status_of};

/// Why no exchange begins for a request (RFC 9110, section 15).
#[derive(Clone, Copy, Debug, PartialEq, Eq)]
pub enum AskFault {
    /// The bytes are no head, or the head's framing is faulty.
    Bad,
    /// The head has more than 16,384 bytes or more than 100 fields.
    TooLarge,
    /// The coding is unknown, or the method is CONNECT.
    NotImplemented,
    /// The version is HTTP/1.0.
    Version,
}

impl AskFault {
    /// The status of the proxy's own answer.
    pub fn status(self) -> u16
        ensures { result ≡ status_of self }
    {
        match self {
            AskFault::Bad => 400,
            AskFault::TooLarge => 431,
            AskFault::NotImplemented => 501,
            AskFault::Version => 505,
        }
    }
}
