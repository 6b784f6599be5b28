//! Whether the marks of several threads stand in one history of the connection table.

use hx_base::{ConnId, NoMemory, PlaceNo, SessionNo, ThreadNo};
use hx_pool::Entry;
use std::alloc::Global;

/// How many places a board has for sixteen threads.
const PLACES: usize = 1024;

/// Who has a connection, or where it rests, and after how many uses.
#[derive(Clone, Copy, PartialEq, Eq, Debug)]
enum Stand {
    With(ThreadNo, SessionNo, u16),
    At(PlaceNo, u16),
    Closed,
}

/// The table of all connections behind the marks that were made.
#[derive(Drop)]
struct Table {
    /// The stand of each connection that was opened, by number.
    conns: Vec<Stand>,
    /// Whether something rests, place by place.
    full: Vec<bool>,
    /// The purge interval.
    round: u64,
}

impl Table {
    fn new(alloc: Global) -> Result<Table, NoMemory> {
        Ok(Table {
            conns: Vec::new(alloc),
            full: Vec::from_elem(alloc, false, PLACES)?,
            round: 0,
        })
    }

    /// The next number goes to a session.
    fn open(&mut self, t: ThreadNo, n: SessionNo, id: ConnId) -> Result<bool, NoMemory> {
        if id.0 != (self.conns.len() as u64).saturating_add(1) {
            return Ok(false);
        }
        self.conns.push(Stand::With(t, n, 0))?;
        Ok(true)
    }

    /// Whether the connection stands so.
    fn stands(&self, id: ConnId, stand: Stand) -> bool {
        match self.conns.get(id.0.saturating_sub(1) as usize) {
            Some(is) => *is == stand,
            None => false,
        }
    }

    /// The connection stands otherwise from now on.
    fn stand(&mut self, id: ConnId, stand: Stand) -> bool {
        let Some(is) = self.conns.get_mut(id.0.saturating_sub(1) as usize) else {
            return false;
        };
        *is = stand;
        true
    }

    /// Fills a vacant place, or vacates a full one.
    fn turn(&mut self, place: PlaceNo, full: bool) -> bool {
        let at = usize::from(place.row) * 64 + usize::from(place.place);
        let Some(is) = self.full.get_mut(at) else {
            return false;
        };
        if place.place >= 64 || *is == full {
            return false;
        }
        *is = full;
        true
    }

    /// The session that has the connection leaves it at a vacant place of its thread's row, with one use more.
    fn park(&mut self, had: Stand, rests: Stand, id: ConnId, place: PlaceNo) -> bool {
        self.stands(id, had) && self.turn(place, true) && self.stand(id, rests)
    }

    /// The connection that rests there goes to a session.
    fn take(&mut self, rests: Stand, has: Stand, id: ConnId, place: PlaceNo) -> bool {
        self.stands(id, rests) && self.turn(place, false) && self.stand(id, has)
    }

    /// The session that has the connection closes it.
    fn close(&mut self, t: ThreadNo, n: SessionNo, id: ConnId) -> bool {
        let has = match self.conns.get(id.0.saturating_sub(1) as usize) {
            Some(Stand::With(thread, session, _)) => *thread == t && *session == n,
            _ => false,
        };
        has && self.stand(id, Stand::Closed)
    }

    fn raise(&mut self, k: u64, old: u64) -> bool {
        if self.round != old || k <= old {
            return false;
        }
        self.round = k;
        true
    }

    /// Makes the mark, if the table allows it.
    fn step(&mut self, mark: Entry) -> Result<bool, NoMemory> {
        match mark {
            Entry::Open { t, n, id } => self.open(t, n, id),
            Entry::Park {
                t,
                n,
                id,
                place,
                uses,
            } => {
                let had = Stand::With(t, n, uses.saturating_sub(1));
                Ok(
                    uses > 0
                        && place.row == t.0
                        && self.park(had, Stand::At(place, uses), id, place),
                )
            }
            Entry::Take {
                t,
                n,
                place,
                id,
                uses,
                ..
            } => Ok(self.take(Stand::At(place, uses), Stand::With(t, n, uses), id, place)),
            Entry::Close { t, n, id } => Ok(self.close(t, n, id)),
            Entry::Round { k, old, .. } => Ok(self.raise(k, old)),
            Entry::SetGate { .. } => Ok(true),
            _ => Ok(false),
        }
    }
}

/// The marks of one thread, and how many of them were made.
#[derive(Drop)]
struct Line {
    marks: Vec<Entry>,
    made: usize,
}

impl Line {
    /// Makes its marks, in order, up to the first that the table doesn't allow yet. It answers how many.
    fn advance(&mut self, table: &mut Table) -> Result<u64, NoMemory> {
        let mut made: u64 = 0;
        for _ in 0..self.marks.len() {
            let Some(mark) = self.marks.get(self.made) else {
                return Ok(made);
            };
            if !table.step(*mark)? {
                return Ok(made);
            }
            self.made = self.made.saturating_add(1);
            made = made.saturating_add(1);
        }
        Ok(made)
    }
}

/// The marks of all threads, on their way into one history.
#[derive(Drop)]
pub(crate) struct History {
    table: Table,
    lines: Vec<Line>,
    marks: u64,
}

impl History {
    pub(crate) fn new(alloc: Global) -> Result<History, NoMemory> {
        Ok(History {
            table: Table::new(alloc)?,
            lines: Vec::new(alloc),
            marks: 0,
        })
    }

    /// Adds the marks of one thread.
    pub(crate) fn add(&mut self, alloc: Global, marks: &[Entry]) -> Result<(), NoMemory> {
        let mut line = Line {
            marks: Vec::new(alloc),
            made: 0,
        };
        line.marks.extend_from_slice(marks)?;
        self.marks = self.marks.saturating_add(marks.len() as u64);
        self.lines.push(line)?;
        Ok(())
    }

    /// Makes what each thread can make next. It answers how many marks.
    fn advance(&mut self) -> Result<u64, NoMemory> {
        let mut made: u64 = 0;
        for line in self.lines.iter_mut() {
            made = made.saturating_add(line.advance(&mut self.table)?);
        }
        Ok(made)
    }

    /// Whether all marks stand in one history, each thread's in its order. Once a mark can be made (its number is the next
    /// one, its connection and its place stand as it needs, the interval is the one that it names), nothing but itself
    /// takes that away. So what can be made is made at once, and where that stops short no other order goes on.
    pub(crate) fn is_one(&mut self) -> Result<bool, NoMemory> {
        let mut made: u64 = 0;
        for _ in 0..self.marks {
            let more = self.advance()?;
            if more == 0 {
                break;
            }
            made = made.saturating_add(more);
        }
        Ok(made == self.marks)
    }

    /// How many connections were opened.
    pub(crate) fn opened(&self) -> usize {
        self.table.conns.len()
    }

    /// Whether each connection that was opened is closed.
    pub(crate) fn is_closed(&self) -> bool {
        for stand in self.table.conns.iter() {
            if *stand != Stand::Closed {
                return false;
            }
        }
        true
    }
}
