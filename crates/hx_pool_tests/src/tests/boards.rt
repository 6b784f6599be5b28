//! What no clause says of the board that threads share: that its calls return and succeed with ample
//! memory, and the entries that come out.
ghost use Rattle.std.specs.Prelude.{◌≡◌, ◌≢◌, IfOk};
ghost use Rattle.hx_pool.specs.SeatView.{AreOfOneBoard};

use crate::tests::callers::{
    Card, ONE, drain_one, drained, park_new, parked, rules, takeovers_in_order, three_takeovers,
    use_other, used,
};
use hx_base::{Millis, Mode, NoMemory, ServerNo, SessionNo, ThreadNo, Totals};
use hx_lockboard::{LockBoard, LockSeat, lock_board, tell_each_other};
use hx_pool::{Entry, HasHistory, NoneOver, Seat};
use std::alloc::Global;
use std::sync::Wait;
use std::test::Fail;
use std::thread::{Threads, join};

const TWO: SessionNo = SessionNo(2);

/// The seats of the three threads of a board.
#[derive(Drop)]
struct Three<'a, R: Wait> {
    a: LockSeat<'a, R, Card>,
    b: LockSeat<'a, R, Card>,
    c: LockSeat<'a, R, Card>,
}

fn seats_of<'a, R: Wait>(
    board: &'a mut LockBoard<Card>,
    rt: &'a R,
    alloc: Global,
) -> Result<Three<'a, R>, NoMemory>
    requires first { board.old.given ≡ 0 }
    requires terms { (board.old.terms.threads ≡ 3)
        × (board.old.terms.server ≡ record { 0 = 0 }) }
    ensures servers { IfOk result (λ s. (s.a.history.about.server ≡ record { 0 = 0 })
        × (s.b.history.about.server ≡ record { 0 = 0 })
        × (s.c.history.about.server ≡ record { 0 = 0 })) }
    ensures one { IfOk result (λ s. AreOfOneBoard s.a.history s.b.history) }
{
    let mut seats = board.seats(rt, alloc)?;
    let c = seats.pop().unwrap();
    let b = seats.pop().unwrap();
    let a = seats.pop().unwrap();
    Ok(Three { a, b, c })
}

#[test]
fn a_safe_board_lets_no_first_request_share(rt: HostRuntime) -> Result<(), Fail> {
    let rules = rules(Mode::Safe, 0);
    let mut board = lock_board::<Card>(rt.alloc(), ServerNo(0), rules, 3, Millis(0))?;
    let Three { mut a, b, c } = seats_of(&mut board, &rt, rt.alloc())?;
    assert_eq!(rt; park_new(&mut a, ONE), Ok(parked(0, ONE, 1, 0)));
    assert!(rt; a.take_own(TWO, true).is_none());
    assert!(rt; a.take_over(TWO, true).err() == Some(NoneOver::NotAllowed));
    assert_eq!(rt; park_new(&mut a, TWO), Ok(parked(0, TWO, 2, 1)));
    a.set_drain();
    assert_eq!(rt;
        a.last().first,
        Some(Entry::SetGate {
            t: ThreadNo(0),
            draining: true
        })
    );
    assert_eq!(rt; drain_one(&mut a), drained(1, 0, 0, 1));
    assert_eq!(rt; drain_one(&mut a), drained(2, 0, 1, 1));
    assert_eq!(rt; drain_one(&mut a), (None, None));
    assert_eq!(rt; (b.totals().care, c.totals().care), (0, 0));
    Ok(())
}

#[test]
fn a_third_worker_takes_over_once_two_rest(rt: HostRuntime) -> Result<(), Fail> {
    let rules = rules(Mode::Always, 2);
    let mut board = lock_board::<Card>(rt.alloc(), ServerNo(0), rules, 3, Millis(0))?;
    let Three {
        mut a,
        mut b,
        mut c,
    } = seats_of(&mut board, &rt, rt.alloc())?;
    tell_each_other(&mut a, &mut b);
    assert_eq!(rt; park_new(&mut a, ONE), Ok(parked(0, ONE, 1, 0)));
    assert!(rt; b.take_own(ONE, true).is_none());
    assert!(rt; b.take_over(ONE, true).err() == Some(NoneOver::BelowLow(1)));
    assert_eq!(rt; park_new(&mut b, ONE), Ok(parked(1, ONE, 2, 0)));
    assert!(rt; c.take_own(ONE, true).is_none());
    assert_eq!(rt; use_other(&mut c, ONE, true), used(2, (0, 0), 1, 1, 0));
    a.set_drain();
    assert_eq!(rt; drain_one(&mut a), drained(2, 1, 0, 1));
    assert_eq!(rt; drain_one(&mut a), drained(1, 2, 0, 2));
    assert_eq!(rt; drain_one(&mut a), (None, None));
    assert!(rt; !c.ready());
    let one = |opened, parked, over, care, closed| Totals {
        opened,
        parked,
        taken: 0,
        over,
        care,
        closed,
    };
    assert_eq!(rt; a.totals(), one(1, 1, 0, 2, 2));
    assert_eq!(rt; b.totals(), one(1, 1, 0, 0, 0));
    assert_eq!(rt; c.totals(), one(0, 1, 1, 0, 0));
    Ok(())
}

#[test]
fn a_takeover_goes_by_rows_then_lists_then_places(rt: HostRuntime) -> Result<(), Fail> {
    let rules = rules(Mode::Always, 0);
    let mut board = lock_board::<Card>(rt.alloc(), ServerNo(0), rules, 3, Millis(0))?;
    let Three {
        mut a,
        mut b,
        mut c,
    } = seats_of(&mut board, &rt, rt.alloc())?;
    assert_eq!(rt;
        three_takeovers(&mut a, &mut b, &mut c),
        takeovers_in_order()
    );
    Ok(())
}

/// How many of forty connections were parked.
fn park_some<R: Wait>(seat: &mut LockSeat<'_, R, Card>) -> u64
    requires { seat.old.history.about.server ≡ record { 0 = 0 } }
{
    let mut count: u64 = 0;
    for _ in 0..40u8 {
        if let Ok((_, Some(_))) = park_new(seat, ONE) {
            count = count.saturating_add(1);
        }
    }
    count
}

fn park_both<R: Wait + Threads + Sync>(
    rt: &R,
    mut a: LockSeat<'_, R, Card>,
    mut b: LockSeat<'_, R, Card>,
) -> (u64, u64)
    requires a { a.history.about.server ≡ record { 0 = 0 } }
    requires b { b.history.about.server ≡ record { 0 = 0 } }
{
    join(rt, move || park_some(&mut a), move || park_some(&mut b))
}

#[test]
fn two_threads_park_at_one_board(rt: HostRuntime) -> Result<(), Fail> {
    let rules = rules(Mode::Always, 2);
    let mut board = lock_board::<Card>(rt.alloc(), ServerNo(0), rules, 3, Millis(0))?;
    let Three { a, b, mut c } = seats_of(&mut board, &rt, rt.alloc())?;
    assert_eq!(rt; park_both(&rt, a, b), (40, 40));
    c.set_drain();
    let mut taken: u8 = 0;
    for _ in 0..100u8 {
        if c.drain_next().is_some() {
            taken = taken.saturating_add(1);
        }
    }
    assert_eq!(rt; taken, 80);
    Ok(())
}
