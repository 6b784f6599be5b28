//! What a seat notes of each of its steps.

use hx_base::{ConnId, Face, PlaceNo, SessionNo, ThreadNo, What};

/// What a look at a place shows.
#[derive(Clone, Copy, PartialEq, Eq, Debug)]
pub enum Found {
    /// The place is vacant, or is being filled.
    Empty,
    /// This connection rests there.
    Resting(Face),
    /// A connection was taken, and the place is not free yet.
    Leaving,
}

/// One step of one thread on the table of a server's connections.
#[derive(Clone, Copy, PartialEq, Eq, Debug)]
pub enum Entry {
    /// Session `n` opened the connection.
    Open {
        t: ThreadNo,
        n: SessionNo,
        id: ConnId,
    },
    /// Session `n` left the connection at a place of its thread's row.
    Park {
        t: ThreadNo,
        n: SessionNo,
        id: ConnId,
        place: PlaceNo,
        uses: u16,
    },
    /// Session `n` took the resting connection. `first`: for the first request of the session.
    Take {
        t: ThreadNo,
        n: SessionNo,
        first: bool,
        place: PlaceNo,
        id: ConnId,
        uses: u16,
    },
    /// The thread freed the place that it had taken from.
    Free {
        t: ThreadNo,
        place: PlaceNo,
    },
    /// Session `n` closed the connection.
    Close {
        t: ThreadNo,
        n: SessionNo,
        id: ConnId,
    },
    /// The thread looked at the place.
    Look {
        t: ThreadNo,
        place: PlaceNo,
        found: Found,
    },
    /// The count of resting connections went up from `old`.
    Up {
        t: ThreadNo,
        old: u64,
    },
    /// The count went down from `old`.
    Down {
        t: ThreadNo,
        old: u64,
    },
    /// The count was read.
    Count {
        t: ThreadNo,
        c: u64,
    },
    /// The drain state was read.
    Gate {
        t: ThreadNo,
        draining: bool,
    },
    /// The drain state was set.
    SetGate {
        t: ThreadNo,
        draining: bool,
    },
    /// The purge interval was raised to `k`, where `old` was below it.
    Round {
        t: ThreadNo,
        k: u64,
        old: u64,
    },
}

/// An entry, and beside a Park what the parked value's link told. No value of it is made: contracts
/// alone speak of it.
pub struct Note {
    pub entry: Entry,
    pub what: Option<What>,
}

/// The marks of one call, of which there are at most two. Marks are the entries Open, Park, Take,
/// Close and SetGate, and a Round that raised the interval.
#[derive(Clone, Copy, PartialEq, Eq, Debug)]
pub struct LastMarks {
    pub first: Option<Entry>,
    pub second: Option<Entry>,
}
