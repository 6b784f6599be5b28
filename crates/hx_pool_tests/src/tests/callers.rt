//! What tests do at a seat of any board.
ghost use Rattle.std.specs.Prelude.{◌≡◌, ◌≢◌};
ghost use Rattle.hx_pool.specs.Held.{Has};

use hx_base::{ConnId, Face, Faced, Millis, Mode, PlaceNo, PoolRules, SessionNo, ThreadNo};
use hx_pool::{Dials, Entry, NoPark, Seat};

/// A value that shows a face alone.
#[derive(Drop)]
pub(crate) struct Card {
    pub(crate) face: Face,
}

impl Faced for Card {
    ghost use Rattle.std.specs.Prelude.{None};

    ghost shows = { λ c. record { face = c.face; server = record { 0 = 0 }; what = record { faults = 0; tag = None; told = None; plan = None } } };

    fn face(&self) -> Face {
        self.face
    }
}

/// It dials every connection.
#[derive(Drop)]
pub(crate) struct Cards;

impl Dials<Card> for Cards {
    ghost server = { λ _. record { 0 = 0 } };

    fn dial(&mut self, id: ConnId) -> Card {
        Card {
            face: Face { id, uses: 1 },
        }
    }
}

pub(crate) const ONE: SessionNo = SessionNo(1);

pub(crate) const CARETAKER: SessionNo = SessionNo(0);

/// A purge interval is 100 ms.
pub(crate) fn rules(mode: Mode, low: u32) -> PoolRules {
    PoolRules {
        mode,
        max: None,
        low,
        delay: Millis(100),
    }
}

/// The marks of two calls, one after the other.
pub(crate) type Marks = (Option<Entry>, Option<Entry>);

/// Opens a connection and parks it after its first use. One that is refused has to come back, and is closed.
pub(crate) fn park_new<S: Seat<Card>>(seat: &mut S, n: SessionNo) -> Result<Marks, NoPark>
    requires server { (S.history seat.old).about.server ≡ record { 0 = 0 } }
    requires session { n.0 ≢ 0 }
    ensures { (S.history seat.new).about ≡ (S.history seat.old).about }
{
    let Ok(id) = seat.open_new(n) else {
        return Ok((None, None));
    };
    let opened = seat.last().first;
    let face = Face { id, uses: 1 };
    match seat.park(n, Card { face }) {
        Ok(_) => Ok((opened, seat.last().first)),
        Err(back) => {
            seat.close(n, id);
            if back.v.face == face {
                Err(back.why)
            } else {
                Ok((opened, None))
            }
        }
    }
}

/// Parks a connection after one more use: the Park. One that is refused is closed.
fn park_again<S: Seat<Card>>(seat: &mut S, n: SessionNo, face: Face) -> Option<Entry>
    requires server { (S.history seat.old).about.server ≡ record { 0 = 0 } }
    requires session { n.0 ≢ 0 }
    requires has { Has (S.history seat.old).mine n face.id.0 face.uses }
    ensures { (S.history seat.new).about ≡ (S.history seat.old).about }
{
    let id = face.id;
    if face.uses == u16::MAX {
        seat.close(n, id);
        return None;
    }
    let used = Face {
        id,
        uses: face.uses + 1,
    };
    match seat.park(n, Card { face: used }) {
        Ok(_) => seat.last().first,
        Err(_) => {
            seat.close(n, id);
            None
        }
    }
}

/// Takes a connection over and parks it after one more use.
pub(crate) fn use_other<S: Seat<Card>>(seat: &mut S, n: SessionNo, first: bool) -> Marks
    requires server { (S.history seat.old).about.server ≡ record { 0 = 0 } }
    requires session { n.0 ≢ 0 }
    ensures { (S.history seat.new).about ≡ (S.history seat.old).about }
{
    let Ok(card) = seat.take_over(n, first) else {
        return (None, None);
    };
    let taken = seat.last().first;
    (taken, park_again(seat, n, card.face))
}

/// Takes a connection of the own row and parks it after one more use.
pub(crate) fn use_own<S: Seat<Card>>(seat: &mut S, n: SessionNo, first: bool) -> Marks
    requires server { (S.history seat.old).about.server ≡ record { 0 = 0 } }
    requires session { n.0 ≢ 0 }
    ensures { (S.history seat.new).about ≡ (S.history seat.old).about }
{
    let Some(card) = seat.take_own(n, first) else {
        return (None, None);
    };
    let taken = seat.last().first;
    (taken, park_again(seat, n, card.face))
}

/// Takes what the drain finds next, and closes it.
pub(crate) fn drain_one<S: Seat<Card>>(seat: &mut S) -> Marks
    ensures { (S.history seat.new).about ≡ (S.history seat.old).about }
{
    let Some(card) = seat.drain_next() else {
        return (None, None);
    };
    let taken = seat.last().first;
    seat.close(CARETAKER, card.face.id);
    (taken, seat.last().first)
}

/// Two connections rest in row 0, and the second one, at the later place, is safe by then. Then session 1 of thread 2, of
/// thread 1 and again of thread 2 takes one over for its first request, and parks it after one more use.
pub(crate) fn three_takeovers<S: Seat<Card>>(a: &mut S, b: &mut S, c: &mut S) -> [Marks; 3]
    requires a { (S.history a.old).about.server ≡ record { 0 = 0 } }
    requires b { (S.history b.old).about.server ≡ record { 0 = 0 } }
    requires c { (S.history c.old).about.server ≡ record { 0 = 0 } }
{
    let _idle = park_new(a, ONE);
    let _safe = park_new(a, ONE);
    let _again = use_own(a, ONE, false);
    [
        use_other(c, ONE, true),
        use_other(b, ONE, true),
        use_other(c, ONE, true),
    ]
}

/// What `three_takeovers` makes: the safe one of row 0, though the idle one is at a lesser place; the one of row 2, which
/// comes next behind row 1; the idle one of row 0, which comes before the safe one of row 1.
pub(crate) fn takeovers_in_order() -> [Marks; 3] {
    [
        used(2, (0, 1), 2, 2, 0),
        used(1, (2, 0), 2, 3, 0),
        used(2, (0, 0), 1, 1, 0),
    ]
}

/// How many a purge takes at this moment, or None where no new interval has begun.
pub(crate) fn purged<S: Seat<Card>>(seat: &mut S, now: Millis) -> Option<u32>
    ensures { (S.history seat.new).about ≡ (S.history seat.old).about }
{
    let Some(mut quota) = seat.due(now) else {
        return None;
    };
    for gone in 0..65u32 {
        let Some(card) = seat.purge_next(&mut quota) else {
            return Some(gone);
        };
        seat.close(CARETAKER, card.face.id);
    }
    None
}

/// What a session opened and parked as its first use.
pub(crate) fn parked(t: u8, n: SessionNo, id: u64, place: u8) -> Marks {
    let (t, id) = (ThreadNo(t), ConnId(id));
    let place = PlaceNo { row: t.0, place };
    let park = Entry::Park {
        t,
        n,
        id,
        place,
        uses: 1,
    };
    (Some(Entry::Open { t, n, id }), Some(park))
}

/// What session 1 of a thread took for its first request at the place, and parked at the first place of its row.
pub(crate) fn used(t: u8, from: (u8, u8), id: u64, uses: u16, to: u8) -> Marks {
    let (t, n, id) = (ThreadNo(t), ONE, ConnId(id));
    let take = Entry::Take {
        t,
        n,
        first: true,
        place: PlaceNo {
            row: from.0,
            place: from.1,
        },
        id,
        uses,
    };
    let park = Entry::Park {
        t,
        n,
        id,
        place: PlaceNo {
            row: t.0,
            place: to,
        },
        uses: uses.saturating_add(1),
    };
    (Some(take), Some(park))
}

/// What the caretaker of thread 0 took and closed.
pub(crate) fn drained(id: u64, row: u8, place: u8, uses: u16) -> Marks {
    let (t, n, id) = (ThreadNo(0), CARETAKER, ConnId(id));
    let take = Entry::Take {
        t,
        n,
        first: false,
        place: PlaceNo { row, place },
        id,
        uses,
    };
    (Some(take), Some(Entry::Close { t, n, id }))
}
