//! Records of exchanges and of the ends of sessions.

use hx_base::{ConnId, ServerNo, SessionNo, Span, ThreadNo};

/// What an exchange moved over its server connection.
#[derive(Clone, Copy, PartialEq, Eq, Debug)]
pub struct Carried {
    pub server: ServerNo,
    pub id: ConnId,
    /// Which exchange of the connection it was, counted from 1.
    pub nth: u32,
    /// The range of what was written to the connection.
    pub sent: Span,
    /// The range of what was read of the connection.
    pub took: Span,
    /// Whether a final head went to the client with `Connection: close`.
    pub closing: bool,
}

/// Why an exchange was cut off.
#[derive(Clone, Copy, PartialEq, Eq, Debug)]
pub enum CutCause {
    /// The answer came before the request was wholly written.
    Early,
    /// The server's link ended.
    Ended,
    /// The server's link failed.
    Fault,
    /// The answer's head, framing or chunks were bad.
    Broken,
    /// A deadline of the server's side came.
    Late,
    /// The client ended, failed, was late or sent bad chunks.
    Client,
    /// The worker stopped.
    Stop,
    /// The client was closed without an answer, so that it may try again (RFC 9110, section 9.2.2).
    Silent,
}

/// What came of a request.
#[derive(Clone, Copy, PartialEq, Eq, Debug)]
pub enum Kind {
    /// The whole answer went to the client.
    Passed(Carried),
    /// The exchange was cut off.
    Cut(Carried, CutCause),
    /// The proxy answered itself, with this status.
    Own(u16),
}

/// One request of a session, and what came of it.
#[derive(Clone, Copy, PartialEq, Eq, Debug)]
pub struct Served {
    pub worker: ThreadNo,
    pub session: SessionNo,
    /// The request's number in its session, counted from 1.
    pub number: u64,
    /// The range of what was read of the client.
    pub ask: Span,
    /// The range of what was written to the client.
    pub gave: Span,
    pub kind: Kind,
}

/// Why a session ended.
#[derive(Clone, Copy, PartialEq, Eq, Debug)]
pub enum LeftCause {
    /// The client ended.
    End,
    /// The last answer closed the connection.
    Closing,
    /// The proxy answered itself.
    Own,
    /// The last exchange was cut off.
    Cut,
    /// No request came in time.
    Idle,
    /// The client's link failed.
    Fault,
    /// The worker stopped.
    Stop,
}

/// The end of a session.
#[derive(Clone, Copy, PartialEq, Eq, Debug)]
pub struct Left {
    pub worker: ThreadNo,
    pub session: SessionNo,
    /// What was read of the client after the last record.
    pub ask: Span,
    pub cause: LeftCause,
}

/// A line of the records.
#[derive(Clone, Copy, PartialEq, Eq, Debug)]
pub enum Told {
    Served(Served),
    Left(Left),
}
