//! What links in memory give: clients that ask, and connections that answer.

use hx_base::{Items, Millis, NoMemory, Piece, ServerNo};
use hx_link::Plan;
use std::alloc::Global;

/// 28 bytes.
pub(crate) const REQUEST: &[u8] = b"GET /a HTTP/1.1\r\nHost: h\r\n\r\n";

/// 40 bytes.
pub(crate) const ANSWER: &[u8] = b"HTTP/1.1 200 OK\r\nContent-Length: 2\r\n\r\nhi";

fn piece(alloc: Global, at: Millis, after: u64, bytes: &[u8]) -> Result<Piece, NoMemory> {
    let mut own = Vec::new(alloc);
    own.extend_from_slice(bytes)?;
    Ok(Piece {
        at,
        after,
        bytes: Items::from_vec(own),
    })
}

/// A client that gives nothing and doesn't end.
pub(crate) fn silent(alloc: Global, line: u32) -> Plan {
    Plan {
        line,
        server: None,
        refuse: false,
        pieces: Items::from_vec(Vec::new(alloc)),
        end: None,
        room: None,
        fail: None,
    }
}

/// A client that sends so many requests at once, and ends once it has all answers.
pub(crate) fn asks(alloc: Global, at: Millis, count: u8) -> Result<Plan, NoMemory> {
    let mut pieces = Vec::new(alloc);
    for _ in 0..count {
        pieces.push(piece(alloc, at, 0, REQUEST)?)?;
    }
    Ok(Plan {
        line: 1,
        server: None,
        refuse: false,
        pieces: Items::from_vec(pieces),
        end: Some((at, 40 * count as u64)),
        room: None,
        fail: None,
    })
}

/// A connection to a server that answers the first so many requests, from a moment on.
pub(crate) fn answers_from(
    alloc: Global,
    at: Millis,
    server: u16,
    count: u8,
) -> Result<Plan, NoMemory> {
    let mut pieces = Vec::new(alloc);
    for done in 0..count {
        pieces.push(piece(alloc, at, 28 * (done as u64 + 1), ANSWER)?)?;
    }
    Ok(Plan {
        line: 2,
        server: Some(ServerNo(server)),
        refuse: false,
        pieces: Items::from_vec(pieces),
        end: None,
        room: None,
        fail: None,
    })
}

/// A connection to a server that answers the first so many requests at once.
pub(crate) fn answers(alloc: Global, server: u16, count: u8) -> Result<Plan, NoMemory> {
    answers_from(alloc, Millis(0), server, count)
}
