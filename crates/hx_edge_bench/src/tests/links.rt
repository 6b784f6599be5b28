//! Links over loopback.
use super::{FIRST_PORT, NOW, PORTS, attach_for, connect, listen_from, read_soon, settle};
use hx_base::{ConnId, Millis, ServerNo, SessionNo, ThreadNo};
use hx_link::{Got, Link, Net, Put};
use hx_proxy_parts::{SockDoor, SockNet};
use std::rt::Clock;
use std::test::Fail;
use std::time::Duration;

const ONE: SessionNo = SessionNo(7);

#[test]
fn the_end_of_a_closed_peer_is_told_once_and_again(rt: HostRuntime) -> Result<(), Fail> {
    let (mut net, mut link, mut peer) = connect(&rt, rt.alloc())?;
    let mut into = [0; 8];
    assert!(rt; attach_for(&mut net, &mut link, ONE));
    assert_eq!(rt; peer.write(NOW, b"ab"), Put::Bytes(2));
    peer.finish();
    assert_eq!(rt; read_soon(&mut net, &mut link, &mut into), Got::Bytes(2));
    assert_eq!(rt; read_soon(&mut net, &mut link, &mut into), Got::End);
    assert_eq!(rt; link.read(NOW, &mut into), Got::End);
    // The other direction is open still.
    assert_eq!(rt; link.write(NOW, b"c"), Put::Bytes(1));
    Ok(())
}

/// A fault is answered only where it was counted, which is proved.
#[test]
fn a_refused_dial_is_a_fault_of_the_net_or_at_the_first_write(rt: HostRuntime) -> Result<(), Fail> {
    let mut door = SockDoor::new(&rt, rt.alloc(), Vec::new(rt.alloc()))?;
    let there = listen_from(&mut door, FIRST_PORT + PORTS).ok_or("no port is free")?;
    drop(door);
    let mut net = SockNet::new(&rt, rt.alloc(), ThreadNo(0), 64)?;
    if let Ok(mut link) = net.dial(ServerNo(0), &there, ConnId(1), NOW) {
        assert!(rt; attach_for(&mut net, &mut link, ONE));
        settle(&mut net);
        assert_eq!(rt; link.write(NOW, b"x"), Put::Failed);
        assert_eq!(rt; link.write(NOW, b"x"), Put::Failed, "for good");
        assert_eq!(rt; link.read(NOW, &mut [0; 8]), Got::Failed);
    }
    Ok(())
}

#[test]
fn a_link_that_is_detached_and_attached_keeps_its_bytes(rt: HostRuntime) -> Result<(), Fail> {
    let (mut net, mut link, mut peer) = connect(&rt, rt.alloc())?;
    let mut two = [0; 2];
    let mut into = [0; 8];
    assert!(rt; attach_for(&mut net, &mut link, ONE));
    assert_eq!(rt; peer.write(NOW, b"abcd"), Put::Bytes(4));
    settle(&mut net);
    assert_eq!(rt; link.read(NOW, &mut two), Got::Bytes(2));
    net.detach(&mut link);
    assert_eq!(rt; peer.write(NOW, b"ef"), Put::Bytes(2));
    settle(&mut net);
    assert!(rt; attach_for(&mut net, &mut link, ONE));
    assert_eq!(rt; link.read(NOW, &mut into), Got::Bytes(4));
    assert_eq!(rt;
        (two, [into[0], into[1], into[2], into[3]]),
        (*b"ab", *b"cdef")
    );
    assert_eq!(rt; link.read(NOW, &mut into), Got::NotYet);
    Ok(())
}

#[test]
fn a_peer_that_speaks_or_closes_while_a_link_rests_is_seen_by_the_next_probe(
    rt: HostRuntime,
) -> Result<(), Fail> {
    let (mut net, mut link, mut peer) = connect(&rt, rt.alloc())?;
    let mut byte = [0; 1];
    assert!(rt; attach_for(&mut net, &mut link, ONE));
    settle(&mut net);
    net.detach(&mut link);
    assert_eq!(rt; link.read(NOW, &mut byte), Got::NotYet, "it rests");
    assert_eq!(rt; peer.write(NOW, b"x"), Put::Bytes(1));
    rt.sleep(Duration::from_millis(20));
    // The byte is there, but without a report the machine isn't asked.
    assert_eq!(rt;
        link.read(NOW, &mut byte),
        Got::NotYet,
        "no loop has looked"
    );
    settle(&mut net);
    assert_eq!(rt; net.next_news(), None, "no session has it");
    assert_eq!(rt;
        link.read(NOW, &mut byte),
        Got::Bytes(1),
        "the loop has looked"
    );
    peer.finish();
    settle(&mut net);
    assert_eq!(rt; link.read(NOW, &mut byte), Got::End);
    Ok(())
}

#[test]
fn a_send_buffer_that_is_full_is_told_and_its_room_reported(rt: HostRuntime) -> Result<(), Fail> {
    let (mut net, mut link, mut peer) = connect(&rt, rt.alloc())?;
    assert!(rt; attach_for(&mut net, &mut link, ONE));
    settle(&mut net);
    let bytes = [7; 8192];
    let mut sent = 0usize;
    for _ in 0..100_000 {
        match link.write(NOW, &bytes) {
            Put::Bytes(n) => sent = sent.saturating_add(n),
            Put::NotYet | Put::Failed => break,
        }
    }
    assert_eq!(rt; link.write(NOW, &bytes), Put::NotYet, "it is full");
    let mut buffer = [0; 8192];
    let mut taken = 0usize;
    for _ in 0..1_000_000 {
        match peer.read(NOW, &mut buffer) {
            Got::Bytes(n) => taken = taken.saturating_add(n),
            _ if taken >= sent => break,
            _ => rt.sleep(Duration::from_millis(1)),
        }
    }
    assert_eq!(rt; taken, sent, "each byte came");
    net.pause(Millis(5000));
    assert_eq!(rt; net.next_news(), Some(ONE), "room is reported");
    assert_eq!(rt; link.write(NOW, &bytes), Put::Bytes(8192));
    Ok(())
}

/// A system that closes a socket with bytes unread may drop what is on its way to the peer.
#[test]
fn what_was_sent_to_a_client_that_is_buried_unread_comes(rt: HostRuntime) -> Result<(), Fail> {
    let (mut net, mut link, mut peer) = connect(&rt, rt.alloc())?;
    let mut into = [0; 8];
    assert!(rt; attach_for(&mut net, &mut link, ONE));
    assert_eq!(rt; link.write(NOW, &[7; 5000]), Put::Bytes(5000));
    rt.sleep(Duration::from_millis(20));
    assert_eq!(rt; peer.write(NOW, b"no"), Put::Bytes(2));
    net.bury(peer);
    assert_eq!(rt; read_soon(&mut net, &mut link, &mut into), Got::Bytes(2));
    assert_eq!(rt; read_soon(&mut net, &mut link, &mut into), Got::End);
    Ok(())
}
