//! Links that move between loops and threads.
use super::{NOW, attach_for, connect, settle};
use hx_base::{Millis, SessionNo, ThreadNo};
use hx_link::{Got, Link, Net, Put};
use hx_proxy_parts::SockNet;
use std::sync::atomic::{AtomicU64, Ordering};
use std::test::Fail;
use std::thread::join;

const ONE: SessionNo = SessionNo(7);

const TWO: SessionNo = SessionNo(9);

#[test]
fn a_link_that_another_loop_took_over_is_reported_there(rt: HostRuntime) -> Result<(), Fail> {
    let (mut net, mut link, mut peer) = connect(&rt, rt.alloc())?;
    let mut other = SockNet::new(&rt, rt.alloc(), ThreadNo(1), 64)?;
    let mut into = [0; 1];
    assert!(rt; attach_for(&mut net, &mut link, ONE));
    settle(&mut net);
    assert_eq!(rt; peer.write(NOW, b"ab"), Put::Bytes(2));
    net.pause(Millis(5000));
    assert_eq!(rt; net.next_news(), Some(ONE));
    // It goes with what was reported of it.
    assert!(rt; attach_for(&mut other, &mut link, TWO));
    assert_eq!(rt; link.read(NOW, &mut into), Got::Bytes(1));
    assert_eq!(rt; link.read(NOW, &mut into), Got::Bytes(1));
    settle(&mut other);
    assert_eq!(rt; link.read(NOW, &mut into), Got::NotYet);
    assert_eq!(rt; peer.write(NOW, b"c"), Put::Bytes(1));
    other.pause(Millis(5000));
    assert_eq!(rt; other.next_news(), Some(TWO), "it is reported there");
    settle(&mut net);
    assert_eq!(rt; net.next_news(), None, "and here no more");
    assert_eq!(rt; link.read(NOW, &mut into), Got::Bytes(1));
    // What comes while it rests there is reported where it goes next.
    other.detach(&mut link);
    assert_eq!(rt; peer.write(NOW, b"d"), Put::Bytes(1));
    assert!(rt; attach_for(&mut net, &mut link, ONE));
    net.pause(Millis(5000));
    assert_eq!(rt; net.next_news(), Some(ONE));
    assert_eq!(rt; link.read(NOW, &mut into), Got::Bytes(1));
    assert_eq!(rt; into[0], b'd');
    Ok(())
}

#[test]
fn no_report_is_lost_for_a_link_that_is_with_another_thread(rt: HostRuntime) -> Result<(), Fail> {
    let (mut net, mut link, mut peer) = connect(&rt, rt.alloc())?;
    assert!(rt; attach_for(&mut net, &mut link, ONE));
    net.detach(&mut link);
    let done = AtomicU64::new(0);
    let (_, came) = join(
        &rt,
        || {
            for _ in 0..1_000_000 {
                if done.load(Ordering::SeqCst) != 0 {
                    break;
                }
                net.pause(Millis(2));
            }
        },
        || {
            let mut came = 0u32;
            let mut into = [0; 8];
            for _ in 0..2000 {
                if peer.write(NOW, b"x") != Put::Bytes(1) {
                    break;
                }
                for _ in 0..20_000_000 {
                    if link.read(NOW, &mut into) == Got::Bytes(1) {
                        came = came.saturating_add(1);
                        break;
                    }
                }
            }
            done.store(1, Ordering::SeqCst);
            came
        },
    );
    assert_eq!(rt; came, 2000);
    Ok(())
}
