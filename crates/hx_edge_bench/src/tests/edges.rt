//! Doors, wakes, files and the clock of the machine.
use super::{FIRST_PORT, NOW, listen_from, next_client};
use hx_base::{ConnId, Millis, ServerNo, ThreadNo};
use hx_doors::{Accepted, Cabinet, Door, NoFile};
use hx_link::{Clock, Got, Net, Source};
use hx_proxy_parts::{FileCabinet, MachineClock, SockDoor, SockNet};
use std::fs;
use std::rt::Clock as _;
use std::test::Fail;
use std::time::Duration;

const FILE: &str = "hx_edge_bench_test.txt";

#[test]
fn a_door_gives_each_client_once_with_its_front_and_wakes_a_net(
    rt: HostRuntime,
) -> Result<(), Fail> {
    let mut net = SockNet::new(&rt, rt.alloc(), ThreadNo(0), 64)?;
    let mut wakers = Vec::new(rt.alloc());
    wakers.push(net.waker()?)?;
    let mut door = SockDoor::new(&rt, rt.alloc(), wakers)?;
    let there = listen_from(&mut door, FIRST_PORT).ok_or("no port is free")?;
    for _ in 0..3 {
        let _link = net.dial(ServerNo(0), &there, ConnId(1), NOW)?;
        let client = next_client(&mut door);
        assert!(rt; matches!(client, Some((3, _))));
    }
    assert!(rt; matches!(door.accept(Millis(20)), Accepted::NotYet));
    // Without the wake the pause would outlast the test.
    for _ in 0..2 {
        door.wake(ThreadNo(0));
        net.pause(Millis(3_600_000));
    }
    Ok(())
}

#[test]
fn a_file_that_is_there_is_read_and_another_is_none(rt: HostRuntime) -> Result<(), Fail> {
    fs::write(&rt, FILE, b"abc")?;
    let mut cabinet = FileCabinet::new(&rt);
    assert!(rt; matches!(cabinet.fetch("hx_edge_bench_none.txt"), Err(NoFile)));
    let mut file = cabinet.fetch(FILE)?;
    let mut into = [0; 8];
    assert_eq!(rt; file.read(&mut into), Got::Bytes(3));
    assert!(rt; into.starts_with(b"abc"));
    assert_eq!(rt; file.read(&mut into), Got::End);
    assert_eq!(rt; file.read(&mut into), Got::End, "again");
    cabinet.give_back(file);
    fs::remove_file(&rt, FILE)?;
    Ok(())
}

#[test]
fn the_clock_goes_on(rt: HostRuntime) {
    let clock = MachineClock::new(&rt);
    let first = clock.now();
    rt.sleep(Duration::from_millis(30));
    let then = clock.now();
    assert!(rt;
        first.0 < 10_000 && then.0 >= first.0.saturating_add(25),
        "{first:?} {then:?}"
    );
}
