//! What no clause says of a run: what it prints, that it serves, and that it ends as it must where nothing is in its way.

mod loopback;
mod memory;
mod refused;

use hx_base::Name;
use hx_doors::MemoryCabinet;
use hx_link::MemorySource;
use std::alloc::Global;
use std::test::Fail;

/// The most bytes that a sink takes.
const ROOM: usize = 10_000;

/// A request that asks for nothing but the answer below, and goes on as it came.
const ASK: &str = "GET /a HTTP/1.1\r\nHost: h\r\n\r\n";

const ANSWER: &str = "HTTP/1.1 200 OK\r\nContent-Length: 2\r\n\r\nhi";

/// A cabinet with one file, `f`, whose read of that number fails, from 1; 0 for none.
fn cabinet_of(alloc: Global, text: &str, fails: u64) -> Result<MemoryCabinet, Fail> {
    let name = Name::from_vec(Vec::from_slice(alloc, b"f")?);
    let bytes = Vec::from_slice(alloc, text.as_bytes())?;
    let source = MemorySource::new(bytes, vec![in alloc; fails]?);
    Ok(MemoryCabinet::new(vec![in alloc; (name, source)]?))
}

/// The words of a line, by its blanks.
fn words_of(alloc: Global, line: &str) -> Result<Vec<String>, Fail> {
    let mut words = Vec::new(alloc);
    for word in line.split(' ') {
        words.push(word.to_string(alloc)?)?;
    }
    Ok(words)
}
