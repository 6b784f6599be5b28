//! The texts of requests and answers.
ghost use Rattle.std.specs.Prelude.{◌≡◌, ◌++◌, OnOk, IfOk, decimal, codes, length, ◌<◌};
ghost use Rattle.hx_drill_parts.specs.Load.{target, close_line, request_text, forwarded_text, copies, repeated, answer_text};
ghost use Rattle.hx_drill_parts.specs.Load.{client_text, given_text, first_requests, first_answers};

use crate::ask::Ask;
use crate::load::Load;
use hx_base::NoMemory;
use itoa::Buffer;
use std::alloc::Global;

/// Puts a label and a number in decimal digits at the end.
fn put_number(out: &mut Vec<u8>, label: &[u8], n: u32) -> Result<(), NoMemory>
    ensures { OnOk result (out.new.items ≡ out.old.items ++ label.now ++ decimal n) }
{
    let mut buffer = Buffer::new();
    out.extend_from_slice(label)?;
    out.extend_from_slice(buffer.format(n).as_bytes())?;
    Ok(())
}

/// The target of a request.
fn target_of(alloc: Global, ask: &Ask) -> Result<Vec<u8>, NoMemory>
    ensures { IfOk result (λ text. text.items ≡ target ask.now) }
{
    let mut text = Vec::new(alloc);
    put_number(&mut text, b"/", ask.session)?;
    put_number(&mut text, b"/", ask.number)?;
    put_number(&mut text, b"/", ask.size)?;
    Ok(text)
}

/// Puts the field that says that the connection is closed, where it is.
fn put_close(out: &mut Vec<u8>, closing: bool) -> Result<(), NoMemory>
    ensures { OnOk result (out.new.items ≡ out.old.items ++ close_line closing) }
{
    if closing {
        out.extend_from_slice(b"Connection: close\r\n")?;
    }
    Ok(())
}

/// A request as its client sends it.
fn request(alloc: Global, ask: &Ask, last: bool) -> Result<Vec<u8>, NoMemory>
    ensures { IfOk result (λ text. text.items ≡ request_text ask.now last) }
{
    let target = target_of(alloc, ask)?;
    let mut text = Vec::from_slice(alloc, b"GET ")?;
    text.extend_from_slice(target.as_slice())?;
    text.extend_from_slice(b" HTTP/1.1\r\nHost: d\r\n")?;
    put_close(&mut text, last)?;
    text.extend_from_slice(b"\r\n")?;
    Ok(text)
}

/// A request as it reaches a server.
pub(crate) fn forwarded(alloc: Global, ask: &Ask) -> Result<Vec<u8>, NoMemory>
    ensures { IfOk result (λ text. text.items ≡ forwarded_text ask.now) }
{
    let target = target_of(alloc, ask)?;
    let mut text = Vec::from_slice(alloc, b"GET ")?;
    text.extend_from_slice(target.as_slice())?;
    text.extend_from_slice(b" HTTP/1.1\r\nHost: d\r\n\r\n")?;
    Ok(text)
}

/// The text over and over, up to that length.
fn repeat(alloc: Global, text: &[u8], size: u32) -> Result<Vec<u8>, NoMemory>
    requires some { 0 < length text.now }
    ensures { IfOk result (λ all. all.items ≡ repeated text.now size) }
{
    let mut all = Vec::new(alloc);
    let size = size as usize;
    for turn in 0..size / text.len() + 1 {
        all.extend_from_slice(text)?;
    }
    all.truncate(size);
    Ok(all)
}

/// An answer, as a server gives it or as a client is given it.
pub(crate) fn answer(alloc: Global, ask: &Ask, closing: bool) -> Result<Vec<u8>, NoMemory>
    ensures { IfOk result (λ text. text.items ≡ answer_text ask.now closing) }
{
    let target = target_of(alloc, ask)?;
    let body = repeat(alloc, target.as_slice(), ask.size)?;
    let mut text = Vec::new(alloc);
    put_number(&mut text, b"HTTP/1.1 200 OK\r\nContent-Length: ", ask.size)?;
    text.extend_from_slice(b"\r\n")?;
    put_close(&mut text, closing)?;
    text.extend_from_slice(b"\r\n")?;
    text.extend_from_slice(body.as_slice())?;
    Ok(text)
}

/// All that the client of a session sends.
pub fn requests_of(alloc: Global, load: Load, session: u32) -> Result<Vec<u8>, NoMemory>
    ensures { IfOk result (λ text. text.items ≡ client_text load.start session) }
{
    let mut text = Vec::new(alloc);
    for number in 0..load.count(session) {
        let ask = load.ask(session, number);
        let part = request(alloc, &ask, load.is_last(session, number))?;
        text.extend_from_slice(part.as_slice())?;
    }
    Ok(text)
}

/// All that it is given.
pub fn answers_of(alloc: Global, load: Load, session: u32) -> Result<Vec<u8>, NoMemory>
    ensures { IfOk result (λ text. text.items ≡ given_text load.start session) }
{
    let mut text = Vec::new(alloc);
    for number in 0..load.count(session) {
        let ask = load.ask(session, number);
        let part = answer(alloc, &ask, load.is_last(session, number))?;
        text.extend_from_slice(part.as_slice())?;
    }
    Ok(text)
}
