//! A head of the greatest length and one that is longer, and bytes that come and go one by one.

use crate::tests::play::play;
use hx_base::NoMemory;
use std::alloc::Global;
use std::test::Fail;

const OPENING: &str =
    "hx-script 1\nconfig 4\nlisten web\n  bind :8080\n  http-reuse always\n  server s1 127.0.0.1:9001\n";

/// How many bytes the shortest head of this form has.
const SHORTEST: usize = 27;

/// A script whose one request has a head of so many bytes.
fn long_head(alloc: Global, length: usize) -> Result<String, NoMemory> {
    let mut text = String::new(alloc);
    text.push_str(OPENING)?;
    text.push_str("client web 0 0\npiece 0 0 \"GET /")?;
    for _ in 0..length.saturating_sub(SHORTEST) {
        text.push('a')?;
    }
    text.push_str(" HTTP/1.1\\r\\nHost: h\\r\\n\\r\\n\"\nend 0 40\nserver web/s1\n")?;
    text.push_str("piece 0 16384 \"HTTP/1.1 200 OK\\r\\nContent-Length: 2\\r\\n\\r\\nhi\"\n")?;
    Ok(text)
}

/// What a client with a longer head is given, as it is told.
const TOO_LARGE: &str =
    "client 0.1 gave \"HTTP/1.1 431 Request Header Fields Too Large\\r\\nContent-Length: 0\\r\\nConnection: close\\r\\n\\r\\n\"\n";

#[test]
fn a_head_has_at_most_16384_bytes(rt: HostRuntime) -> Result<(), Fail> {
    let alloc = rt.alloc();
    let text = long_head(alloc, 16_384)?;
    assert_eq!(rt;
        play(alloc, text.as_str())?.records.as_str(),
        "pass 0.1 1 web/s1#1 1 ask 0-16384 sent 0-16384 took 0-40 gave 0-40 keep\nleft 0.1 16384-16384 end\n"
    );
    let text = long_head(alloc, 16_385)?;
    let told = play(alloc, text.as_str())?;
    assert_eq!(rt;
        told.records.as_str(),
        "own 0.1 1 431 ask 0-16384 gave 0-86\nleft 0.1 16384-16384 own\n"
    );
    assert!(rt; told.whole.contains(TOO_LARGE));
    Ok(())
}

/// Each byte is a piece of its own, due once so many bytes were sent.
fn put_pieces(
    alloc: Global,
    text: &mut String,
    after: u32,
    bytes: &[&str],
) -> Result<(), NoMemory> {
    for byte in bytes {
        text.push_str(format!(in alloc; "piece 0 {after} \"{byte}\"\n")?.as_str())?;
    }
    Ok(())
}

/// 28 bytes.
const REQUEST: [&str; 28] = [
    "G", "E", "T", " ", "/", "a", " ", "H", "T", "T", "P", "/", "1", ".", "1", "\\r", "\\n", "H",
    "o", "s", "t", ":", " ", "h", "\\r", "\\n", "\\r", "\\n",
];

/// 40 bytes.
const ANSWER: [&str; 40] = [
    "H", "T", "T", "P", "/", "1", ".", "1", " ", "2", "0", "0", " ", "O", "K", "\\r", "\\n", "C",
    "o", "n", "t", "e", "n", "t", "-", "L", "e", "n", "g", "t", "h", ":", " ", "2", "\\r", "\\n",
    "\\r", "\\n", "h", "i",
];

/// A script of two requests whose links give and take one byte at a time.
fn by_bytes(alloc: Global) -> Result<String, NoMemory> {
    let mut text = String::new(alloc);
    text.push_str(OPENING)?;
    text.push_str("client web 0 0\nroom 1\n")?;
    put_pieces(alloc, &mut text, 0, &REQUEST)?;
    put_pieces(alloc, &mut text, 0, &REQUEST)?;
    text.push_str("end 0 80\nserver web/s1\nroom 1\n")?;
    put_pieces(alloc, &mut text, 28, &ANSWER)?;
    put_pieces(alloc, &mut text, 56, &ANSWER)?;
    Ok(text)
}

/// The same script with whole pieces.
const WHOLE: &str =
    "client web 0 0\npiece 0 0 \"GET /a HTTP/1.1\\r\\nHost: h\\r\\n\\r\\nGET /a HTTP/1.1\\r\\nHost: h\\r\\n\\r\\n\"\nend 0 80\nserver web/s1\npiece 0 28 \"HTTP/1.1 200 OK\\r\\nContent-Length: 2\\r\\n\\r\\nhi\"\npiece 0 56 \"HTTP/1.1 200 OK\\r\\nContent-Length: 2\\r\\n\\r\\nhi\"\n";

#[test]
fn bytes_may_be_cut_anywhere(rt: HostRuntime) -> Result<(), Fail> {
    let alloc = rt.alloc();
    let whole = format!(in alloc; "{OPENING}{WHOLE}")?;
    let cut = by_bytes(alloc)?;
    let told = play(alloc, cut.as_str())?;
    assert_eq!(rt; told.whole, play(alloc, whole.as_str())?.whole);
    assert_eq!(rt;
        told.records.as_str(),
        "pass 0.1 1 web/s1#1 1 ask 0-28 sent 0-28 took 0-40 gave 0-40 keep\npass 0.1 2 web/s1#1 2 ask 28-56 sent 28-56 took 40-80 gave 40-80 keep\nleft 0.1 56-56 end\n"
    );
    Ok(())
}
