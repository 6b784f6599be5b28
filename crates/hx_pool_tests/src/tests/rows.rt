//! What no clause says of rows without a lock: that their calls succeed, and which places and connections come out.
ghost use Rattle.std.specs.Prelude.{◌≡◌, ◌≢◌, ◌-◌, ◌≤◌, IfOk, IfSome};
ghost use Rattle.hx_pool.specs.Held.{Has};
ghost use Rattle.hx_places.specs.Seats.{about};
ghost use Rattle.hx_pool_tests.specs.Owners.{IsOwner};

use hx_base::{
    ConnId, Face, Faced, Millis, Mode, NoMemory, PlaceNo, PoolRules, ServerNo, SessionNo,
};
use hx_places::{Board, PlaceSeat};
use hx_pool::{NoPark, allowed};
use hx_rows::Row;
use std::alloc::Global;
use std::test::Fail;

/// A value that shows a face alone.
#[derive(Drop)]
struct Card {
    face: Face,
}

impl Faced for Card {
    ghost use Rattle.std.specs.Prelude.{None};

    ghost shows = { λ c. record { face = c.face; server = record { 0 = 0 }; what = record { faults = 0; tag = None; told = None; plan = None } } };

    fn face(&self) -> Face {
        self.face
    }
}

const ONE: SessionNo = SessionNo(1);

/// A seat opens fewer connections than this.
const OPENS: u64 = 68_719_476_735;

fn rules(max: Option<u32>) -> PoolRules {
    PoolRules {
        mode: Mode::Always,
        max,
        low: 0,
        delay: Millis(5000),
    }
}

/// A thread's seat and its row, for one session.
#[derive(Drop)]
struct Owner<'a> {
    seat: PlaceSeat<'a, Card>,
    row: Row,
}

impl<'a> Owner<'a> {
    /// Parks a connection of the session, which has this face by now.
    fn let_rest(&mut self, face: Face) -> Result<PlaceNo, NoPark>
        requires owner { IsOwner self.old.seat self.old.row }
        requires has { Has self.old.seat.view.mine (record { 0 = 1 }) face.id.0 (face.uses - 1) }
        requires used { 1 ≤ face.uses }
        ensures owner { IsOwner self.new.seat self.new.row }
        ensures about { about self.new.seat ≡ about self.old.seat }
    {
        match self.row.park(&mut self.seat, ONE, Card { face }) {
            Ok(place) => Ok(place),
            Err(back) => Err(back.why),
        }
    }

    /// Opens a connection and parks it after its first use.
    fn park_new(&mut self) -> Result<PlaceNo, NoPark>
        requires owner { IsOwner self.old.seat self.old.row }
        ensures owner { IsOwner self.new.seat self.new.row }
        ensures about { about self.new.seat ≡ about self.old.seat }
    {
        if self.seat.opens() >= OPENS {
            return Err(NoPark::Never);
        }
        let id = self.seat.draw(ONE);
        self.let_rest(Face { id, uses: 1 })
    }

    /// Takes a connection of its row: its face.
    fn take(&mut self, first: bool) -> Option<Face>
        requires owner { IsOwner self.old.seat self.old.row }
        ensures owner { IsOwner self.new.seat self.new.row }
        ensures has { IfSome result
            (λ f. Has self.new.seat.view.mine (record { 0 = 1 }) f.id.0 f.uses) }
        ensures about { about self.new.seat ≡ about self.old.seat }
    {
        match self.row.take_own(&mut self.seat, ONE, first) {
            Some(card) => Some(card.face),
            None => None,
        }
    }

    /// Takes a connection of its row and parks it after one more use: the face that it took.
    fn use_again(&mut self, first: bool) -> Option<Face>
        requires owner { IsOwner self.old.seat self.old.row }
        ensures owner { IsOwner self.new.seat self.new.row }
        ensures about { about self.new.seat ≡ about self.old.seat }
    {
        let Some(face) = self.take(first) else {
            return None;
        };
        if face.uses == u16::MAX {
            return None;
        }
        let used = Face {
            id: face.id,
            uses: face.uses + 1,
        };
        match self.let_rest(used) {
            Ok(_) => Some(face),
            Err(_) => None,
        }
    }

    /// Sets whether the server drains.
    fn set_draining(&mut self, draining: bool)
        requires owner { IsOwner self.old.seat self.old.row }
        ensures owner { IsOwner self.new.seat self.new.row }
        ensures about { about self.new.seat ≡ about self.old.seat }
    {
        self.seat.set_gate(draining);
    }

    /// Whether the connection of this face was taken from the place.
    fn take_at(&mut self, place: PlaceNo, face: Face) -> bool
        requires owner { IsOwner self.old.seat self.old.row }
        ensures owner { IsOwner self.new.seat self.new.row }
        ensures about { about self.new.seat ≡ about self.old.seat }
    {
        let of_board = place.row < self.seat.threads() && place.place < 64;
        let shown = face.id.0 > 0 && face.id.0 < (1 << 40) && face.uses > 0;
        if !of_board || !shown || !allowed(self.seat.rules().mode, false, face.uses) {
            return false;
        }
        match self.seat.take_at(ONE, false, place, face) {
            Ok(_) => {
                self.seat.down();
                true
            }
            Err(_) => false,
        }
    }

    /// From now on the other has seen what this one has seen.
    fn tell(&mut self, other: &mut Owner<'a>)
        requires board { self.old.seat.board ≡ other.old.seat.board }
        requires apart { self.old.seat.view.thread.0 ≢ other.old.seat.view.thread.0 }
        requires owner { IsOwner self.old.seat self.old.row }
        requires other { IsOwner other.old.seat other.old.row }
        ensures owner { IsOwner self.new.seat self.new.row }
        ensures other { IsOwner other.new.seat other.new.row }
        ensures about { (about self.new.seat ≡ about self.old.seat)
            × (about other.new.seat ≡ about other.old.seat) }
    {
        self.seat.tell(&mut other.seat);
    }
}

/// The two threads of a board.
#[derive(Drop)]
struct Two<'a> {
    a: Owner<'a>,
    b: Owner<'a>,
}

fn owners_of<'a>(board: &'a mut Board<Card>, alloc: Global) -> Result<Two<'a>, NoMemory>
    requires first { board.old.given ≡ 0 }
    requires terms { (board.old.terms.threads ≡ 2)
        × (board.old.terms.server ≡ record { 0 = 0 }) }
    ensures a { IfOk result (λ s. IsOwner s.a.seat s.a.row) }
    ensures b { IfOk result (λ s. IsOwner s.b.seat s.b.row) }
    ensures board { IfOk result (λ s. s.a.seat.board ≡ s.b.seat.board) }
    ensures apart { IfOk result (λ s. s.a.seat.view.thread.0 ≢ s.b.seat.view.thread.0) }
{
    let mut seats = board.seats(alloc)?;
    let last = seats.pop().unwrap();
    let first = seats.pop().unwrap();
    let a = Owner {
        seat: first,
        row: Row::new(alloc)?,
    };
    let b = Owner {
        seat: last,
        row: Row::new(alloc)?,
    };
    Ok(Two { a, b })
}

/// Whether so many new connections came to rest at the first places of row 0.
fn park_first(a: &mut Owner<'_>, count: u8) -> bool
    requires owner { IsOwner a.old.seat a.old.row }
    ensures owner { IsOwner a.new.seat a.new.row }
{
    let mut all = true;
    for number in 0..count {
        all = a.park_new() == Ok(place(0, number)) && all;
    }
    all
}

fn place(row: u8, place: u8) -> PlaceNo {
    PlaceNo { row, place }
}

fn face(id: u64, uses: u16) -> Face {
    Face {
        id: ConnId(id),
        uses,
    }
}

#[test]
fn the_greatest_number_holds_over_both_rows(rt: HostRuntime) -> Result<(), Fail> {
    let rules = rules(Some(1));
    let mut board = Board::<Card>::new(rt.alloc(), ServerNo(0), rules, 2, Millis(0))?;
    let Two { mut a, mut b } = owners_of(&mut board, rt.alloc())?;
    assert_eq!(rt; a.park_new(), Ok(place(0, 0)));
    assert_eq!(rt; b.park_new(), Err(NoPark::PoolFull(1)));
    assert_eq!(rt; a.take(true), Some(face(1, 1)));
    assert_eq!(rt; b.park_new(), Ok(place(1, 0)));
    Ok(())
}

#[test]
fn a_first_request_likes_the_safe_list_and_a_later_one_the_idle_list(
    rt: HostRuntime,
) -> Result<(), Fail> {
    let mut board = Board::<Card>::new(rt.alloc(), ServerNo(0), rules(None), 2, Millis(0))?;
    let Two { mut a, .. } = owners_of(&mut board, rt.alloc())?;
    assert_eq!(rt; a.park_new(), Ok(place(0, 0)));
    assert_eq!(rt; a.use_again(false), Some(face(1, 1)));
    assert_eq!(rt; a.park_new(), Ok(place(0, 1)));
    // The first one is safe by now, the second one idle and parked later.
    assert_eq!(rt; a.use_again(true), Some(face(1, 2)));
    assert_eq!(rt; a.take(false), Some(face(2, 1)));
    // Where the preferred list is empty the other one serves.
    assert_eq!(rt; a.take(false), Some(face(1, 3)));
    assert_eq!(rt; a.take(true), None);
    Ok(())
}

#[test]
fn of_one_list_the_one_parked_last_comes_first(rt: HostRuntime) -> Result<(), Fail> {
    let mut board = Board::<Card>::new(rt.alloc(), ServerNo(0), rules(None), 2, Millis(0))?;
    let Two { mut a, .. } = owners_of(&mut board, rt.alloc())?;
    assert!(rt; park_first(&mut a, 3));
    assert_eq!(rt; a.take(true), Some(face(3, 1)));
    assert_eq!(rt; a.park_new(), Ok(place(0, 2)));
    assert_eq!(rt; a.take(false), Some(face(4, 1)));
    assert_eq!(rt; a.take(true), Some(face(2, 1)));
    assert_eq!(rt; a.take(false), Some(face(1, 1)));
    assert_eq!(rt; a.take(false), None);
    Ok(())
}

#[test]
fn the_65th_connection_meets_a_full_row(rt: HostRuntime) -> Result<(), Fail> {
    let mut board = Board::<Card>::new(rt.alloc(), ServerNo(0), rules(None), 2, Millis(0))?;
    let Two { mut a, mut b } = owners_of(&mut board, rt.alloc())?;
    assert!(rt; park_first(&mut a, 64));
    assert_eq!(rt; a.park_new(), Err(NoPark::RowFull));
    assert_eq!(rt; b.park_new(), Ok(place(1, 0)));
    Ok(())
}

#[test]
fn a_place_that_another_emptied_is_used_again(rt: HostRuntime) -> Result<(), Fail> {
    let mut board = Board::<Card>::new(rt.alloc(), ServerNo(0), rules(None), 2, Millis(0))?;
    let Two { mut a, mut b } = owners_of(&mut board, rt.alloc())?;
    assert_eq!(rt; a.park_new(), Ok(place(0, 0)));
    assert_eq!(rt; a.park_new(), Ok(place(0, 1)));
    assert!(rt; b.take_at(place(0, 0), face(1, 1)));
    assert!(rt; !b.take_at(place(0, 0), face(1, 1)));
    assert_eq!(rt; a.park_new(), Ok(place(0, 0)));
    assert_eq!(rt; a.take(true), Some(face(3, 1)));
    assert!(rt; b.take_at(place(0, 1), face(2, 1)));
    // What was taken meanwhile isn't found any more.
    assert_eq!(rt; a.take(true), None);
    Ok(())
}

#[test]
fn two_seats_tell_each_other_between_calls(rt: HostRuntime) -> Result<(), Fail> {
    let mut board = Board::<Card>::new(rt.alloc(), ServerNo(0), rules(None), 2, Millis(0))?;
    let Two { mut a, mut b } = owners_of(&mut board, rt.alloc())?;
    assert_eq!(rt; a.park_new(), Ok(place(0, 0)));
    a.tell(&mut b);
    assert_eq!(rt; b.park_new(), Ok(place(1, 0)));
    b.tell(&mut a);
    assert!(rt; b.take_at(place(0, 0), face(1, 1)));
    a.tell(&mut b);
    assert_eq!(rt; (a.take(true), b.take(true)), (None, Some(face(2, 1))));
    Ok(())
}

#[test]
fn a_server_that_drains_takes_none(rt: HostRuntime) -> Result<(), Fail> {
    let mut board = Board::<Card>::new(rt.alloc(), ServerNo(0), rules(None), 2, Millis(0))?;
    let Two { mut a, mut b } = owners_of(&mut board, rt.alloc())?;
    b.set_draining(true);
    assert_eq!(rt; a.park_new(), Err(NoPark::Draining));
    b.set_draining(false);
    assert_eq!(rt; a.park_new(), Ok(place(0, 0)));
    Ok(())
}
