//! Which load is generated, and what comes of it.
ghost use Rattle.std.specs.Prelude.{◌≡◌, ◌<◌, ◌≤◌, ◌+◌, MatchOption};
ghost use Rattle.hx_drill_parts.specs.Load.{request_count, body_length, generated, is_last};

use crate::ask::Ask;

/// What came of a drill.
#[derive(Clone, Copy, PartialEq, Eq, Debug)]
pub struct DrillSum {
    /// How many requests the sessions made.
    pub requests: u64,
    /// How many bytes the bodies of the answers have.
    pub bytes: u64,
    /// How many connections to servers were opened.
    pub opened: u64,
    pub closed: u64,
}

/// Why a drill ended early.
#[derive(Clone, Copy, PartialEq, Eq, Debug)]
pub enum DrillFault {
    /// The gate held a session of that worker for too long.
    Held { worker: u8 },
    NoMemory,
}

/// The greatest start.
const MOST_START: u64 = 1_000_000;

/// The requests that sessions make. All lengths depend on the start.
#[derive(Clone, Copy, PartialEq, Eq, Debug)]
pub struct Load {
    pub start: u64,
    ghost small: { start ≤ 1000000 },
}

impl Load {
    /// The load of that start. None: it is above 1,000,000.
    pub fn new(start: u64) -> Option<Load>
        ensures { MatchOption result (1000000 < start) (λ l. l.start ≡ start) }
    {
        if start > MOST_START {
            return None;
        }
        Some(Load { start })
    }

    /// How many requests the session makes.
    pub fn count(self, session: u32) -> u32
        ensures { result ≡ request_count self.start session }
    {
        1 + ((session as u64 + self.start) % 4) as u32
    }

    /// The session's request of that number.
    pub fn ask(self, session: u32, number: u32) -> Ask
        ensures { result ≡ generated self.start session number }
    {
        let size = (31 * session as u64 + 7 * number as u64 + self.start) % 1_000;
        Ask {
            session,
            number,
            size: size as u32,
        }
    }

    /// Whether the request of that number is the session's last one.
    pub fn is_last(self, session: u32, number: u32) -> bool
        ensures { result ≡ is_last self.start session number }
    {
        number as u64 + 1 == self.count(session) as u64
    }
}
