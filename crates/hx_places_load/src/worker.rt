//! A thread's session at a board.
ghost use Rattle.std.specs.Prelude.{◌≡◌, true, All, IfOk};
ghost use Rattle.std.specs.Option.{ForSome};
ghost use Rattle.hx_base.specs.PlaceWords.{IsFace};
ghost use Rattle.hx_places.specs.Seats.{IsOfBoard};
ghost use Rattle.hx_places_load.specs.Resting.{IsOurs, IsAtRest, IsFresh, HasFace};

use crate::card::Card;
use crate::steps::{
    close_one, count_all, look_at, open_one, park_at, raise_to, set_draining, take_face,
};
use hx_base::{Face, NoMemory, PlaceNo};
use hx_places::{Board, PlaceSeat};
use hx_pool::Found;
use std::alloc::Global;

/// A thread's seat, and the connection that its session has, if it has one.
#[derive(Drop)]
pub(crate) struct Worker<'a> {
    seat: PlaceSeat<'a, Card>,
    held: Option<Face>,
    ghost rests: { IsAtRest seat },
    ghost has: { ForSome held (HasFace seat) },
}

/// What came of a park.
#[derive(Clone, Copy, PartialEq, Eq, Debug)]
pub(crate) enum Parked {
    /// It rests with this face.
    Rests(Face),
    /// It rested with this face, and the seat took it back, since the server drains.
    Back(Face),
    /// The session has it still, if it had one.
    Refused,
}

/// Whether a word can show the face.
fn is_shown(face: Face) -> bool
    ensures { result ≡ true → IsFace face }
{
    face.id.0 > 0 && face.id.0 < (1 << 40) && face.uses > 0
}

impl<'a> Worker<'a> {
    pub(crate) fn new(seat: PlaceSeat<'a, Card>) -> Worker<'a>
        requires { IsAtRest seat }
    {
        Worker { seat, held: None }
    }

    /// A place of its own row.
    pub(crate) fn own_place(&self, place: u8) -> PlaceNo
        ensures row { result.row ≡ self.now.seat.view.thread.0 }
    {
        PlaceNo {
            row: self.seat.thread().0,
            place,
        }
    }

    fn has_place(&self, at: PlaceNo) -> bool
        ensures { result ≡ true → IsOfBoard self.now.seat at }
    {
        at.row < self.seat.threads() && at.place < 64
    }

    /// What its session has.
    pub(crate) fn held(&self) -> Option<Face> {
        self.held
    }

    /// Opens a connection for its session, if it has none.
    pub(crate) fn open(&mut self) -> Option<Face> {
        if self.held.is_some() {
            return None;
        }
        self.held = open_one(&mut self.seat);
        self.held
    }

    /// Lets its connection rest at this place of its row.
    pub(crate) fn park(&mut self, place: u8) -> Parked {
        let at = self.own_place(place);
        if !self.has_place(at) {
            return Parked::Refused;
        }
        let Some(face) = self.held else {
            return Parked::Refused;
        };
        if face.uses == u16::MAX {
            return Parked::Refused;
        }
        let used = Face {
            id: face.id,
            uses: face.uses + 1,
        };
        let (rested, held) = park_at(&mut self.seat, at, face);
        self.held = held;
        match (rested, held) {
            (false, _) => Parked::Refused,
            (true, None) => Parked::Rests(used),
            (true, Some(_)) => Parked::Back(used),
        }
    }

    /// What a look at the place shows. None: the board has no such place.
    pub(crate) fn look(&mut self, at: PlaceNo) -> Option<Found> {
        if !self.has_place(at) {
            return None;
        }
        Some(look_at(&mut self.seat, at))
    }

    /// Takes what rests at the place with this face. Else it answers what the place shows, or None where its session has
    /// a connection already, or where there is no such place or face.
    pub(crate) fn take(&mut self, at: PlaceNo, face: Face) -> Result<(), Option<Found>> {
        if self.held.is_some() || !self.has_place(at) || !is_shown(face) {
            return Err(None);
        }
        match take_face(&mut self.seat, at, face) {
            Ok(taken) => {
                self.held = Some(taken);
                Ok(())
            }
            Err(found) => Err(Some(found)),
        }
    }

    /// Closes the connection of its session, if it has one.
    pub(crate) fn close(&mut self) -> Option<Face> {
        let held = self.held;
        if let Some(face) = held {
            close_one(&mut self.seat, face);
        }
        self.held = None;
        held
    }

    /// How many rest, or are on the way.
    pub(crate) fn count(&mut self) -> u64 {
        count_all(&mut self.seat)
    }

    /// Sets whether the server drains.
    pub(crate) fn set_draining(&mut self, draining: bool) {
        set_draining(&mut self.seat, draining);
    }

    /// Raises the purge interval, and answers the one before.
    pub(crate) fn raise(&mut self, k: u64) -> u64 {
        raise_to(&mut self.seat, k)
    }
}

/// The seats of all threads of a board, each at rest.
pub(crate) fn seats_of(
    board: &mut Board<Card>,
    alloc: Global,
) -> Result<Vec<PlaceSeat<'_, Card>>, NoMemory>
    requires first { board.old.given ≡ 0 }
    requires ours { IsOurs board.old.terms }
    ensures { IfOk result (λ v. All IsAtRest v.items) }
{
    let seats = board.seats(alloc)?;
    Ok(seats)
}

/// The seats of all threads of a board, which have made no entry.
pub(crate) fn fresh_seats_of(
    board: &mut Board<Card>,
    alloc: Global,
) -> Result<Vec<PlaceSeat<'_, Card>>, NoMemory>
    requires first { board.old.given ≡ 0 }
    requires ours { IsOurs board.old.terms }
    ensures { IfOk result (λ v. All IsFresh v.items) }
{
    let seats = board.seats(alloc)?;
    Ok(seats)
}
