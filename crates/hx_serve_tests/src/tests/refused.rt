//! A door that can't listen.

use super::loopback::{Outside, file_of, make_outside};
use super::{ROOM, cabinet_of, words_of};
use hx_link::{MemorySink, MemorySource};
use hx_proxy_parts::MachineClock;
use hx_serve::serve_main;
use std::net::TcpListener;
use std::test::Fail;

#[test]
fn a_port_that_is_taken_ends_the_run(rt: HostRuntime) -> Result<(), Fail> {
    let alloc = rt.alloc();
    let taken = TcpListener::bind(&rt, "127.0.0.1:0")?;
    let file = file_of(alloc, taken.local_addr()?.port(), 9001)?;
    let words = words_of(alloc, "--config f")?;
    let mut cabinet = cabinet_of(alloc, file.as_str(), 0)?;
    let mut orders = MemorySource::new(Vec::from_slice(alloc, b"stop\n")?, Vec::new(alloc));
    let Outside { mut nets, mut door } = make_outside(&rt)?;
    let mut sink = MemorySink::new(alloc, ROOM, Vec::new(alloc))?;
    let status = serve_main(
        &rt,
        alloc,
        words.as_slice(),
        &mut cabinet,
        &mut orders,
        &mut door,
        nets.as_mut_slice(),
        &MachineClock::new(&rt),
        &mut sink,
    );
    assert_eq!(rt; status, 5);
    assert_eq!(rt; sink.taken(), b"listen fault\n".as_slice());
    Ok(())
}
