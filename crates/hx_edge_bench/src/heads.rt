//! Heads of messages, which end at their first empty line, and the messages that are sent.

use std::alloc::{AllocError, Global};

/// How many bytes stand up to the end of the first empty line.
pub fn head_length(bytes: &[u8]) -> Option<usize> {
    let mut ends = 0u8;
    let mut count = 0usize;
    for byte in bytes {
        count = count.saturating_add(1);
        ends = match (*byte, ends) {
            (13, 2) => 3,
            (13, _) => 1,
            (10, 1) => 2,
            (10, 3) => return Some(count),
            _ => 0,
        };
    }
    None
}

/// A request of so many bytes, or of the fewest that it can have.
pub fn request(alloc: Global, length: usize) -> Result<Vec<u8>, AllocError> {
    let mut bytes = Vec::new(alloc);
    bytes.extend_from_slice(b"GET /a HTTP/1.1\r\nHost: h\r\n")?;
    let rest = length.saturating_sub(28);
    if rest >= 5 {
        bytes.extend_from_slice(b"X: ")?;
        for _ in 5..rest {
            bytes.push(b'y')?;
        }
        bytes.extend_from_slice(b"\r\n")?;
    }
    bytes.extend_from_slice(b"\r\n")?;
    Ok(bytes)
}

/// An answer whose body has so many bytes.
pub fn answer(alloc: Global, body: usize) -> Result<Vec<u8>, AllocError> {
    let mut bytes = Vec::new(alloc);
    bytes.extend_from_slice(b"HTTP/1.1 200 OK\r\nContent-Length: ")?;
    let digits = format!(in alloc; "{body}")?;
    bytes.extend_from_slice(digits.as_bytes())?;
    bytes.extend_from_slice(b"\r\n\r\n")?;
    for _ in 0..body {
        bytes.push(b'x')?;
    }
    Ok(bytes)
}
