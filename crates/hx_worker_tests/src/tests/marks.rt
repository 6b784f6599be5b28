//! Marks of thread 0, as the worked texts give them.

use hx_base::{ConnId, PlaceNo, SessionNo, ThreadNo};
use hx_pool::Entry;

const T: ThreadNo = ThreadNo(0);

const CARETAKER: u32 = 0;

fn place_of(place: u8) -> PlaceNo {
    PlaceNo { row: 0, place }
}

pub(crate) fn open(n: u32, id: u64) -> Entry {
    Entry::Open {
        t: T,
        n: SessionNo(n),
        id: ConnId(id),
    }
}

pub(crate) fn park(n: u32, id: u64, place: u8, uses: u16) -> Entry {
    Entry::Park {
        t: T,
        n: SessionNo(n),
        id: ConnId(id),
        place: place_of(place),
        uses,
    }
}

/// A take for a later request of the session.
pub(crate) fn take(n: u32, id: u64, place: u8, uses: u16) -> Entry {
    Entry::Take {
        t: T,
        n: SessionNo(n),
        first: false,
        place: place_of(place),
        id: ConnId(id),
        uses,
    }
}

/// A take for the first request of the session.
pub(crate) fn take_first(n: u32, id: u64, place: u8, uses: u16) -> Entry {
    Entry::Take {
        t: T,
        n: SessionNo(n),
        first: true,
        place: place_of(place),
        id: ConnId(id),
        uses,
    }
}

pub(crate) fn close(n: u32, id: u64) -> Entry {
    Entry::Close {
        t: T,
        n: SessionNo(n),
        id: ConnId(id),
    }
}

pub(crate) fn care_take(id: u64, place: u8, uses: u16) -> Entry {
    take(CARETAKER, id, place, uses)
}

pub(crate) fn care_close(id: u64) -> Entry {
    close(CARETAKER, id)
}

pub(crate) fn gate(draining: bool) -> Entry {
    Entry::SetGate { t: T, draining }
}

pub(crate) fn round(k: u64, old: u64) -> Entry {
    Entry::Round { t: T, k, old }
}
