//! What messages mean: heads, bodies, exchanges, and the texts that go out. Definitions and their laws.
#![tactic(auto)]

ghost use Rattle.std.specs.Prelude.{◌≡◌, ℕ, List, Bool};
ghost use Rattle.hx_message.specs.Forwarded.{ForwardsRequest, ForwardsAnswer};
ghost use Rattle.httparse.specs.Grammar.{ResponseHead};
ghost use Rattle.hx_message.specs.Message.{IsAnswerWith};
ghost use Rattle.hx_message.specs.Partial.{IsPrefix, BeginsForwardedAnswer};

mod again;
mod whole;

pub use again::heads_go_out_as_heads;
pub use whole::messages_go_out_whole;

/// What a method does to the framing of its answer (RFC 9110, sections 9.3.2 and 9.3.6).
#[derive(Clone, Copy, Debug, PartialEq, Eq)]
pub enum MethodKind {
    Head,
    Connect,
    Other,
}

/// How the end of a body is found (RFC 9112, section 6.3).
#[derive(Clone, Copy, Debug, PartialEq, Eq)]
pub enum BodyKind {
    Nothing,
    /// So many bytes.
    Length(u64),
    Chunked,
    /// It is close-delimited: the end of the connection ends it.
    ToEnd,
}

/// Why a message has no kind of body (RFC 9112, sections 3.2, 6.1 and 6.3).
#[derive(Clone, Copy, Debug, PartialEq, Eq)]
pub enum FrameFault {
    /// A Transfer-Encoding stands beside a Content-Length.
    BothLengths,
    /// There are several Content-Length fields, or several numbers in one.
    SeveralLengths,
    /// The Content-Length is no number, or is too great.
    BadLength,
    /// The coding isn't chunked alone, or stands in an answer of HTTP/1.0.
    UnknownCoding,
    /// A request has not exactly one Host.
    BadHost,
}

/// A message, whole or in part, goes out as one text, and a whole answer has one final head and one kind of body.
pub fn one_meaning()
    ensures request { (bytes s t : List ℕ) → ForwardsRequest bytes s → ForwardsRequest bytes t → s ≡ t }
    ensures answer { (bytes : List ℕ) (closing : Bool) (s t : List ℕ)
        → ForwardsAnswer bytes closing s → ForwardsAnswer bytes closing t → s ≡ t }
    ensures head { (m : MethodKind) (bytes : List ℕ) (g h : ResponseHead) (k l : BodyKind)
        → IsAnswerWith m bytes g k → IsAnswerWith m bytes h l → (g ≡ h) × (k ≡ l) }
    ensures begins { (bytes : List ℕ) (closing : Bool) (front text : List ℕ)
        → BeginsForwardedAnswer bytes closing front → ForwardsAnswer bytes closing text → IsPrefix front text }
    ensures all { (bytes : List ℕ) (closing : Bool) (front text : List ℕ)
        → ForwardsAnswer bytes closing text → IsPrefix front text → BeginsForwardedAnswer bytes closing front }
{}
