//! Heads that are looked at and spelled anew, and bodies that pass, through pipes.
use hx_frame::{Meter, MeterState};
use hx_link::Pipe;
use hx_message::{BodyKind, MethodKind};
use hx_session_parts::{
    AnswerLook, AskLook, look_answer, look_ask, pass_body, spell_answer, spell_ask,
};
use std::alloc::Global;
use std::test::Fail;

/// A pipe that holds the bytes and has no more room than that.
fn pipe_of(alloc: Global, bytes: &[u8], capacity: usize) -> Result<Pipe, Fail> {
    let mut pipe = Pipe::new(alloc, capacity)?;
    pipe.fill(bytes);
    Ok(pipe)
}

fn holds(pipe: &mut Pipe, bytes: &[u8]) -> bool {
    &*pipe.whole() == bytes
}

fn fault_of(bytes: &[u8]) -> Option<u16> {
    match look_ask(bytes) {
        AskLook::Refused(fault) => Some(fault.status()),
        AskLook::Whole(_) | AskLook::More => None,
    }
}

#[test]
fn requests_that_the_proxy_answers_itself(rt: HostRuntime) {
    let cases: [(&[u8], Option<u16>); 8] = [
        (b"GET / HTTP/1.1\r\nHost: h\r\n\r\n", None),
        (b"GET / HTTP/1.1\r\nHost", None),
        (b"\x01", Some(400)),
        (b"GET / HTTP/1.1\r\n\r\n", Some(400)),
        (b"CONNECT h:1 HTTP/1.1\r\nHost: h\r\n\r\n", Some(501)),
        (b"CONNECT h:1 HTTP/1.1\r\n\r\n", Some(400)),
        (
            b"POST / HTTP/1.1\r\nHost: h\r\nTransfer-Encoding: gzip, chunked\r\n\r\n",
            Some(501),
        ),
        (b"GET / HTTP/1.0\r\n\r\n", Some(505)),
    ];
    for (bytes, status) in cases {
        assert_eq!(rt; fault_of(bytes), status);
    }
    let mut long = [b'a'; 16_384];
    assert_eq!(rt; fault_of(&long), Some(431));
    long[0] = 1;
    assert_eq!(rt; fault_of(&long), Some(400));
}

#[derive(Clone, Copy, Debug, PartialEq, Eq)]
enum Seen {
    Interim,
    Final,
    More,
    Broken,
}

fn look_of(bytes: &[u8]) -> Seen {
    match look_answer(MethodKind::Other, bytes) {
        AnswerLook::Interim(_) => Seen::Interim,
        AnswerLook::Final(_) => Seen::Final,
        AnswerLook::More => Seen::More,
        AnswerLook::Broken => Seen::Broken,
    }
}

#[test]
fn answers_by_their_heads(rt: HostRuntime) {
    let cases: [(&[u8], Seen); 7] = [
        (b"HTTP/1.1 100 Continue\r\n\r\n", Seen::Interim),
        (b"HTTP/1.1 101 Switching Protocols\r\n\r\n", Seen::Broken),
        (b"HTTP/1.1 199 X\r\n\r\n", Seen::Interim),
        (b"HTTP/1.1 200 OK\r\n\r\n", Seen::Final),
        (b"HTTP/1.1 200 O", Seen::More),
        (b"HTTP/1.1 099 X\r\n\r\n", Seen::Broken),
        (
            b"HTTP/1.1 200 OK\r\nContent-Length: 1, 1\r\n\r\n",
            Seen::Broken,
        ),
    ];
    for (bytes, is) in cases {
        assert_eq!(rt; look_of(bytes), is);
    }
}

const ASK: &[u8] = b"GET /a HTTP/1.1\r\nHost: h\r\nConnection: close, X-Q\r\nX-Q: 1\r\n\r\n";

const TEXT: &[u8] = b"GET /a HTTP/1.1\r\nHost: h\r\n\r\n";

/// What went out for the request through a pipe of that capacity, and how much is left.
fn spelled(alloc: Global, capacity: usize) -> Result<(bool, usize, bool), Fail> {
    let mut from = pipe_of(alloc, ASK, 100)?;
    let mut to = pipe_of(alloc, &[], capacity)?;
    let went = match look_ask(from.whole()) {
        AskLook::Whole(asked) => asked.wants_close
            && spell_ask(&mut from, &mut to, &asked).is_some(),
        AskLook::More | AskLook::Refused(_) => false,
    };
    Ok((went, from.len(), holds(&mut to, TEXT)))
}

#[test]
fn a_head_goes_out_where_it_has_room(rt: HostRuntime) -> Result<(), Fail> {
    assert_eq!(rt;
        spelled(rt.alloc(), TEXT.len() - 1)?,
        (false, ASK.len(), false)
    );
    assert_eq!(rt; spelled(rt.alloc(), TEXT.len())?, (true, 0, true));
    Ok(())
}

const CLOSING: &[u8] = b"HTTP/1.1 200 OK\r\nContent-Length: 2\r\nConnection: close\r\n\r\n";

#[test]
fn an_answer_goes_out_closing(rt: HostRuntime) -> Result<(), Fail> {
    let mut from = pipe_of(
        rt.alloc(),
        b"HTTP/1.1 200 OK\r\nContent-Length: 2\r\n\r\nhi",
        100,
    )?;
    let mut to = pipe_of(rt.alloc(), &[], 100)?;
    let went = match look_answer(MethodKind::Other, from.whole()) {
        AnswerLook::Final(answered) => spell_answer(&mut from, &mut to, &answered.head, true),
        AnswerLook::Interim(_) | AnswerLook::More | AnswerLook::Broken => false,
    };
    assert!(rt; went && holds(&mut from, b"hi"));
    assert!(rt; holds(&mut to, CLOSING));
    Ok(())
}

/// A chunked body of 15 bytes with one byte behind it.
const CHUNKS: &[u8] = b"5\r\nhello\r\n0\r\n\r\nX";

/// How many bytes of it passed through a pipe of that capacity, and whether its end was found.
fn passed(alloc: Global, capacity: usize) -> Result<(usize, bool), Fail> {
    let mut meter = Meter::new(BodyKind::Chunked);
    let mut from = pipe_of(alloc, CHUNKS, CHUNKS.len())?;
    let mut to = pipe_of(alloc, &[], capacity)?;
    let mut moved = 0;
    for _ in 0..CHUNKS.len() {
        let fed = pass_body(&mut meter, &mut from, &mut to);
        if fed.used > CHUNKS.len() || moved > CHUNKS.len() {
            return Ok((moved, false));
        }
        moved += fed.used;
        let full = to.len();
        to.drop_front(full);
        if fed.state == MeterState::Done {
            return Ok((moved, holds(&mut from, b"X")));
        }
    }
    Ok((moved, false))
}

#[test]
fn a_body_passes_up_to_its_end_in_any_pieces(rt: HostRuntime) -> Result<(), Fail> {
    for capacity in [1, 2, 7, 1000] {
        assert_eq!(rt; passed(rt.alloc(), capacity)?, (15, true));
    }
    Ok(())
}
