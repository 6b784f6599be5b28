//! A seat with values that show a face alone, for session 1.
ghost use Rattle.std.specs.Prelude.{◌≡◌};

use hx_base::{
    ConnId, Face, Faced, Millis, Mode, NoMemory, PlaceNo, PoolRules, ServerNo, SessionNo,
};
use hx_plain::PlainSeat;
use hx_pool::{Dials, NoPark, NoneOver, Seat};
use std::alloc::Global;

#[derive(Drop)]
pub(crate) struct Card {
    face: Face,
}

impl Faced for Card {
    ghost use Rattle.std.specs.Prelude.{None};

    ghost shows = { λ c. record { face = c.face; server = record { 0 = 0 }; what = record { faults = 0; tag = None; told = None; plan = None } } };

    fn face(&self) -> Face {
        self.face
    }
}

#[derive(Drop)]
pub(crate) struct Cards;

impl Dials<Card> for Cards {
    ghost server = { λ _. record { 0 = 0 } };

    fn dial(&mut self, id: ConnId) -> Card {
        Card {
            face: Face { id, uses: 1 },
        }
    }
}

/// At least two connections have to rest before one is taken over.
pub(crate) fn rules(mode: Mode, max: Option<u32>, delay: u64) -> PoolRules {
    PoolRules {
        mode,
        max,
        low: 2,
        delay: Millis(delay),
    }
}

#[derive(Drop)]
pub(crate) struct Bench {
    pub seat: PlainSeat<Card>,
    ghost ours: { seat.history.about.server ≡ record { 0 = 0 } },
}

impl Bench {
    pub(crate) fn new(alloc: Global, rules: PoolRules) -> Result<Bench, NoMemory> {
        let seat = PlainSeat::new(alloc, ServerNo(0), rules, Millis(1000))?;
        Ok(Bench { seat })
    }

    /// Opens a connection and parks it after its first use. A refused value has to come back.
    pub(crate) fn park_new(&mut self) -> Result<PlaceNo, NoPark> {
        let Ok(id) = self.seat.open_new(SessionNo(1)) else {
            return Err(NoPark::Never);
        };
        let face = Face { id, uses: 1 };
        match self.seat.park(SessionNo(1), Card { face }) {
            Ok(place) => Ok(place),
            Err(back) => if back.v.face == face {
                Err(back.why)
            } else {
                Err(NoPark::Never)
            },
        }
    }

    /// Takes a connection and parks it after one more use: its uses.
    pub(crate) fn use_again(&mut self, first: bool) -> Option<u16> {
        let Some(card) = self.seat.take_own(SessionNo(1), first) else {
            return None;
        };
        let id = card.face.id;
        let uses = card.face.uses;
        if uses == u16::MAX {
            return None;
        }
        let face = Face { id, uses: uses + 1 };
        match self.seat.park(SessionNo(1), Card { face }) {
            Ok(_) => Some(face.uses),
            Err(_) => None,
        }
    }

    /// Why nothing was taken over.
    pub(crate) fn take_over(&mut self, first: bool) -> Option<NoneOver> {
        self.seat.take_over(SessionNo(1), first).err()
    }

    pub(crate) fn set_drain(&mut self) {
        self.seat.set_drain();
    }

    pub(crate) fn set_ready(&mut self) {
        self.seat.set_ready();
    }

    /// Whether the drain took one.
    pub(crate) fn drain_one(&mut self) -> bool {
        self.seat.drain_next().is_some()
    }

    pub(crate) fn into_seat(self) -> PlainSeat<Card> {
        let Bench { seat } = self;
        seat
    }
}

/// How many go at this moment, or None where no new interval has begun.
pub(crate) fn purged(seat: &mut PlainSeat<Card>, now: Millis) -> Option<u32> {
    let Some(mut quota) = seat.due(now) else {
        return None;
    };
    for gone in 0..65u32 {
        if seat.purge_next(&mut quota).is_none() {
            return Some(gone);
        }
    }
    None
}
