//! Lanes, on one thread and on three.
use hx_handoff::{Giver, LaneFull, Taker, lane};
use std::alloc::Global;
use std::sync::Wait;
use std::test::Fail;
use std::thread::join;

#[test]
fn a_full_lane_hands_back_and_an_empty_one_gives_none(rt: HostRuntime) -> Result<(), Fail> {
    let mut lane = lane(rt.alloc(), 2)?;
    let (mut giver, _, mut taker) = lane.ends();
    assert_eq!(rt; taker.collect(&rt), None::<u32>);
    for item in [1, 2] {
        assert!(rt; giver.hand(&rt, item).is_ok(), "there is room for {item}");
    }
    assert!(rt; matches!(giver.hand(&rt, 3), Err(LaneFull(3))));
    assert_eq!(rt; taker.collect(&rt), Some(1));
    assert!(rt; giver.hand(&rt, 4).is_ok(), "there is room again");
    assert_eq!(rt; taker.collect(&rt), Some(2));
    assert_eq!(rt; taker.collect(&rt), Some(4));
    assert_eq!(rt; taker.collect(&rt), None);
    Ok(())
}

#[test]
fn what_two_givers_handed_in_is_collected_after_they_ended(rt: HostRuntime) -> Result<(), Fail> {
    let mut lane = lane(rt.alloc(), 4)?;
    let (mut first, mut second, mut taker) = lane.ends();
    assert!(rt; first.hand(&rt, 1).is_ok() && second.hand(&rt, 10).is_ok());
    assert!(rt; first.hand(&rt, 2).is_ok() && second.hand(&rt, 20).is_ok());
    assert!(rt;
        matches!(second.hand(&rt, 30), Err(LaneFull(30))),
        "both fill one lane"
    );
    taker.settle(&rt, first);
    assert_eq!(rt; taker.collect(&rt), Some(1));
    taker.settle(&rt, second);
    for item in [10, 2, 20] {
        assert_eq!(rt; taker.collect(&rt), Some(item));
    }
    assert_eq!(rt; taker.collect(&rt), None);
    Ok(())
}

/// How many items each giver hands in.
const ITEMS: u32 = 2000;

/// Hands in so many numbers from a first one on, each as soon as there is room.
fn hand_all<R: Wait>(rt: &R, giver: &mut Giver<'_, u32>, first: u32) {
    for item in first..first.saturating_add(ITEMS) {
        for _ in rt.forever() {
            if giver.hand(rt, item).is_ok() {
                break;
            }
        }
    }
}

/// Collects what two givers hand in, and says whether it came in the order of each. The second one's numbers are from 10,000 on.
fn collect_all<R: Wait>(rt: &R, taker: &mut Taker<'_, u32>) -> bool {
    let mut first = 0;
    let mut second = 10_000;
    for _ in rt.forever() {
        if first == ITEMS && second == 10_000 + ITEMS {
            break;
        }
        match taker.collect(rt) {
            Some(item) if item == first => first = item.saturating_add(1),
            Some(item) if item == second => second = item.saturating_add(1),
            Some(_) => return false,
            None => {}
        }
    }
    true
}

#[test]
fn three_threads_share_a_lane(rt: HostRuntime) -> Result<(), Fail> {
    let mut lane = lane(rt.alloc(), 2)?;
    let (mut first, mut second, mut taker) = lane.ends();
    let (_, (_, in_order)) = join(
        &rt,
        || hand_all(&rt, &mut first, 0),
        || {
            join(
                &rt,
                || hand_all(&rt, &mut second, 10_000),
                || collect_all(&rt, &mut taker),
            )
        },
    );
    assert!(rt; in_order);
    assert_eq!(rt; taker.collect(&rt), None, "nothing is left");
    Ok(())
}
