//! What no clause says: that the calls succeed, the words of places, and two seats whose calls fall between one another.
ghost use Rattle.std.specs.Prelude.{◌≡◌, All, IfSome};
ghost use Rattle.hx_base.specs.PlaceWords.{IsFace};
ghost use Rattle.hx_places_load.specs.Resting.{IsAtRest, IsFilling, HasToRead, HasFace};

use crate::card::Card;
use crate::history::History;
use crate::load::run;
use crate::steps::{claim_at, drains_now, open_one, publish_as, take_back};
use crate::whole::run_whole;
use crate::worker::{Parked, Worker, fresh_seats_of, seats_of};
use hx_base::{
    ConnId, Face, Millis, Mode, PlaceNo, PlaceState, PoolRules, ServerNo, SessionNo, ThreadNo,
    pack_place, unpack_place,
};
use hx_places::{Board, Claim, PlaceSeat};
use hx_pool::{Entry, Found, Seat};
use hx_purge::SlotSeat;
use std::test::Fail;

#[test]
fn each_state_of_a_place_has_its_word(rt: HostRuntime) {
    let resting = PlaceState::Resting(Face {
        id: ConnId(5),
        uses: 3,
    });
    assert_eq!(rt; pack_place(PlaceState::Vacant), 0);
    assert_eq!(rt; pack_place(PlaceState::Filling), 4_611_686_018_427_387_904);
    assert_eq!(rt; pack_place(resting), 9_223_372_036_855_103_491);
    assert_eq!(rt;
        pack_place(PlaceState::Taken(ThreadNo(3))),
        13_835_058_055_282_163_715
    );
    assert_eq!(rt; unpack_place(0), Some(PlaceState::Vacant));
    assert_eq!(rt;
        unpack_place(4_611_686_018_427_387_904),
        Some(PlaceState::Filling)
    );
    assert_eq!(rt; unpack_place(9_223_372_036_855_103_491), Some(resting));
    assert_eq!(rt;
        unpack_place(13_835_058_055_282_163_715),
        Some(PlaceState::Taken(ThreadNo(3)))
    );
}

#[test]
fn a_word_of_no_state_is_none(rt: HostRuntime) {
    // A bit beside the state; no number, no use, a number of 41 bits; a seventeenth thread.
    for word in [
        1,
        4_611_686_018_427_387_905,
        9_223_372_036_854_775_811,
        9_223_372_036_855_103_488,
        9_295_429_630_892_703_747,
        13_835_058_055_282_163_728,
    ] {
        assert_eq!(rt; unpack_place(word), None);
    }
}

const RULES: PoolRules = PoolRules {
    mode: Mode::Always,
    max: Some(2),
    low: 0,
    delay: Millis(5000),
};

/// A worker at the last of the seats.
fn worker_of<'a>(seats: &mut Vec<PlaceSeat<'a, Card>>) -> Result<Worker<'a>, Fail>
    requires { All IsAtRest seats.old.items }
    ensures { All IsAtRest seats.new.items }
{
    match seats.pop() {
        Some(seat) => Ok(Worker::new(seat)),
        None => Err(Fail::new("no seat")),
    }
}

fn face(id: u64, uses: u16) -> Face {
    Face {
        id: ConnId(id),
        uses,
    }
}

fn place(row: u8, place: u8) -> PlaceNo {
    PlaceNo { row, place }
}

#[test]
fn of_two_seats_that_try_one_face_the_second_finds_the_place_empty(
    rt: HostRuntime,
) -> Result<(), Fail> {
    let mut board = Board::<Card>::new(rt.alloc(), ServerNo(0), RULES, 2, Millis(0))?;
    let mut seats = seats_of(&mut board, rt.alloc())?;
    let mut b = worker_of(&mut seats)?;
    let mut a = worker_of(&mut seats)?;
    assert_eq!(rt; a.open(), Some(face(1, 0)));
    assert_eq!(rt; a.park(5), Parked::Rests(face(1, 1)));
    let at = place(0, 5);
    // Both see it before either tries.
    assert_eq!(rt; a.look(at), Some(Found::Resting(face(1, 1))));
    assert_eq!(rt; b.look(at), Some(Found::Resting(face(1, 1))));
    assert_eq!(rt; b.take(at, face(1, 1)), Ok(()));
    assert_eq!(rt; a.take(at, face(1, 1)), Err(Some(Found::Empty)));
    assert_eq!(rt; (a.held(), b.held()), (None, Some(face(1, 1))));
    assert_eq!(rt; a.count(), 0);
    // It comes back with another use, and the old face takes it no more.
    assert_eq!(rt; b.park(0), Parked::Rests(face(1, 2)));
    assert_eq!(rt;
        a.take(place(1, 0), face(1, 1)),
        Err(Some(Found::Resting(face(1, 2))))
    );
    assert_eq!(rt; a.take(place(1, 0), face(1, 2)), Ok(()));
    assert_eq!(rt; a.close(), Some(face(1, 2)));
    Ok(())
}

#[test]
fn two_seats_whose_calls_fall_between_one_another(rt: HostRuntime) -> Result<(), Fail> {
    let mut board = Board::<Card>::new(rt.alloc(), ServerNo(0), RULES, 2, Millis(0))?;
    let mut seats = seats_of(&mut board, rt.alloc())?;
    let mut b = worker_of(&mut seats)?;
    let mut a = worker_of(&mut seats)?;
    // Each draws before either parks, and the second parks first.
    assert_eq!(rt; (a.open(), b.open()), (Some(face(1, 0)), Some(face(2, 0))));
    assert_eq!(rt; b.park(3), Parked::Rests(face(2, 1)));
    assert_eq!(rt; a.park(3), Parked::Rests(face(1, 1)));
    assert_eq!(rt; (a.count(), b.count()), (2, 2));
    // Two rest, which is the greatest number.
    assert_eq!(rt; b.open(), Some(face(3, 0)));
    assert_eq!(rt; b.park(1), Parked::Refused);
    assert_eq!(rt; a.take(place(1, 3), face(2, 1)), Ok(()));
    assert_eq!(rt; b.park(1), Parked::Rests(face(3, 1)));
    assert_eq!(rt; b.take(place(0, 3), face(1, 1)), Ok(()));
    // A server that drains takes none; each seat closes what the other opened.
    b.set_draining(true);
    assert_eq!(rt; a.park(0), Parked::Refused);
    assert_eq!(rt;
        (a.close(), b.close()),
        (Some(face(2, 1)), Some(face(1, 1)))
    );
    assert_eq!(rt; (a.raise(7), b.raise(5)), (0, 7));
    assert_eq!(rt; a.look(place(1, 1)), Some(Found::Resting(face(3, 1))));
    assert_eq!(rt; (a.count(), b.look(place(1, 3))), (1, Some(Found::Empty)));
    Ok(())
}

/// What came of a park that met a drain.
#[derive(Clone, Copy, PartialEq, Eq, Debug)]
struct Met {
    /// What the drain took, first behind the park and then at the end.
    drained: (Option<Face>, Option<Face>),
    /// What the parker's gate showed.
    draining: bool,
    /// What its take back got.
    back: Option<Face>,
}

fn face_of(card: Option<Card>) -> Option<Face> {
    match card {
        Some(card) => Some(card.face),
        None => None,
    }
}

/// Claims the first place of its row.
fn claim_first(parker: &mut PlaceSeat<'_, Card>, opened: Face) -> Option<Claim>
    requires rest { IsAtRest parker.old }
    requires has { HasFace parker.old opened }
    ensures filling { IfSome result (λ c. IsFilling parker.new c.place) }
    ensures has { HasFace parker.new opened }
{
    let at = PlaceNo {
        row: parker.thread().0,
        place: 0,
    };
    claim_at(parker, at)
}

/// What the gate behind a park shows, and what the take back gets where it shows draining.
fn read_and_take(
    parker: &mut PlaceSeat<'_, Card>,
    place: PlaceNo,
    face: Face,
) -> (bool, Option<Face>)
    requires parked { HasToRead parker.old place face }
    requires face { IsFace face }
{
    if drains_now(parker) {
        return (true, take_back(parker, place, face));
    }
    (false, None)
}

/// A park at the first place of its row, step by step. Before it publishes the other sets the server draining, and behind that
/// it drains.
fn park_into_drain(
    parker: &mut PlaceSeat<'_, Card>,
    drainer: &mut SlotSeat<'_, Card>,
) -> Option<Met>
    requires rest { IsAtRest parker.old }
{
    let opened = open_one(parker)?;
    if opened.uses == u16::MAX {
        return None;
    }
    let used = Face {
        id: opened.id,
        uses: opened.uses + 1,
    };
    let claim = claim_first(parker, opened)?;
    let place = claim.place;
    drainer.set_drain();
    publish_as(parker, claim, used);
    let first = face_of(drainer.drain_next());
    let (draining, back) = read_and_take(parker, place, used);
    let last = face_of(drainer.drain_next());
    Some(Met {
        drained: (first, last),
        draining,
        back,
    })
}

#[test]
fn a_drain_takes_what_a_park_under_way_published(rt: HostRuntime) -> Result<(), Fail> {
    let mut board = Board::<Card>::new(rt.alloc(), ServerNo(0), RULES, 2, Millis(0))?;
    let mut seats = fresh_seats_of(&mut board, rt.alloc())?;
    let (Some(last), Some(mut parker)) = (seats.pop(), seats.pop()) else {
        return Err(Fail::new("no seat"));
    };
    let mut drainer = SlotSeat::new(rt.alloc(), last)?;
    let met = Met {
        drained: (Some(face(1, 1)), None),
        draining: true,
        back: None,
    };
    assert_eq!(rt; park_into_drain(&mut parker, &mut drainer), Some(met));
    assert!(rt; drainer.is_drained());
    assert!(rt; drainer.drain_next().is_none());
    Ok(())
}

#[test]
fn sixteen_threads_meet_each_rest_once(rt: HostRuntime) -> Result<(), Fail> {
    let load = run(&rt, rt.alloc(), 10)?;
    assert!(rt; load.is_whole());
    Ok(())
}

/// Whether the marks of two threads stand in one history.
fn are_one(rt: &HostRuntime, first: &[Entry], second: &[Entry]) -> Result<bool, Fail> {
    let mut history = History::new(rt.alloc())?;
    history.add(rt.alloc(), first)?;
    history.add(rt.alloc(), second)?;
    Ok(history.is_one()?)
}

fn open(t: u8, id: u64) -> Entry {
    Entry::Open {
        t: ThreadNo(t),
        n: SessionNo(1),
        id: ConnId(id),
    }
}

fn park(t: u8, id: u64, at: PlaceNo, uses: u16) -> Entry {
    Entry::Park {
        t: ThreadNo(t),
        n: SessionNo(1),
        id: ConnId(id),
        place: at,
        uses,
    }
}

fn take(t: u8, id: u64, at: PlaceNo, uses: u16) -> Entry {
    Entry::Take {
        t: ThreadNo(t),
        n: SessionNo(1),
        first: true,
        place: at,
        id: ConnId(id),
        uses,
    }
}

fn close(t: u8, id: u64) -> Entry {
    Entry::Close {
        t: ThreadNo(t),
        n: SessionNo(1),
        id: ConnId(id),
    }
}

#[test]
fn marks_that_stand_in_no_history_are_found(rt: HostRuntime) -> Result<(), Fail> {
    let (a, b) = (place(0, 0), place(1, 0));
    let one = [open(0, 1), park(0, 1, a, 1)];
    // What the first thread parked goes to the second, and back.
    let goes = [open(1, 2), take(1, 1, a, 1), park(1, 1, b, 2), close(1, 2)];
    let back = [open(0, 1), park(0, 1, a, 1), take(0, 1, b, 2), close(0, 1)];
    assert!(rt; are_one(&rt, &back, &goes)?);
    // It is taken twice, or after other uses; the second closes what it hasn't; it parks in the row of the first, or
    // where something rests; a number is given twice; each waits for the other.
    assert!(rt;
        !are_one(
            &rt,
            &[open(0, 1), park(0, 1, a, 1), take(0, 1, a, 1)],
            &[take(1, 1, a, 1)]
        )?
    );
    assert!(rt; !are_one(&rt, &one, &[take(1, 1, a, 2)])?);
    assert!(rt; !are_one(&rt, &one, &[close(1, 1)])?);
    assert!(rt; !are_one(&rt, &one, &[open(1, 2), park(1, 2, a, 1)])?);
    assert!(rt;
        !are_one(
            &rt,
            &[open(0, 1), open(0, 2), park(0, 1, a, 1), park(0, 2, a, 1)],
            &[]
        )?
    );
    assert!(rt; !are_one(&rt, &one, &[open(1, 1)])?);
    assert!(rt;
        !are_one(
            &rt,
            &[open(0, 1), take(0, 2, b, 1), park(0, 1, a, 1)],
            &[open(1, 2), take(1, 1, a, 1), park(1, 2, b, 1)]
        )?
    );
    Ok(())
}

#[test]
fn whole_seats_on_sixteen_threads_make_one_history(rt: HostRuntime) -> Result<(), Fail> {
    let whole = run_whole(&rt, rt.alloc(), 32)?;
    assert!(rt; whole.is_settled());
    assert!(rt; whole.opened > 16);
    Ok(())
}
