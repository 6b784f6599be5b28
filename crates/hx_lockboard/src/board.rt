//! A board, which gives a seat to each thread.
ghost use Rattle.std.specs.Prelude.{◌≡◌, ℕ, ◌+◌, ◌<◌, ◌≤◌, [], IfOk, length, slice_get, Some, false};
ghost use Rattle.hx_resting.specs.declared.roles.Role.TheVariants.{Makes};
ghost use Rattle.atomic_table.specs.declared.shared.Seat.{Seat};
ghost use Rattle.std.specs.Prelude.{Option};
ghost use Rattle.hx_resting.specs.declared.values.Rows.{Rows};
ghost use Rattle.hx_resting.specs.declared.roles.View.{View};

use crate::rule::{Give, OneValue};
use crate::seat::LockSeat;
use atomic_table::{Seat, Table};
use hx_base::{Faced, Millis, NoMemory, PoolRules, ServerNo, ThreadNo};
use hx_pool::BoardTerms;
use hx_resting::{Rows, View};
use std::alloc::Global;
use std::sync::Wait;

/// The rows of one server, in one value.
#[derive(Drop)]
pub struct LockBoard<V: Faced> {
    table: Table<Option<Rows<V>>, View, BoardTerms, OneValue, Global>,
    maker: Seat<Option<Rows<V>>, View>,
    pub terms: BoardTerms,
    pub given: u8,
    ghost seated: { (maker.table_id ≡ table.shared.table_id) × (table.shared.key ≡ terms) },
    ghost sized: { (table.shared.table_id.words ≡ 2) × (table.shared.table_id.slots ≡ 1) },
    ghost few: { terms.threads ≤ 16 },
    ghost makes: { (maker.me.0.role ≡ Makes) × (maker.me.0.out ≡ false) × (maker.me.0.terms ≡ terms) × (maker.me.0.thread.0 ≡ given) },
}

/// A board with so many rows, where nothing rests. Purge intervals count from `start`.
pub fn lock_board<V: Faced>(
    alloc: Global,
    server: ServerNo,
    rules: PoolRules,
    threads: u8,
    start: Millis,
) -> Result<LockBoard<V>, NoMemory>
    requires threads { (1 ≤ threads) × (threads ≤ 16) }
    ensures { IfOk result (λ b. (b.given ≡ 0) × (b.terms
        ≡ record { server = server; rules = rules; threads = threads; start = start })) }
{
    let terms = BoardTerms {
        server,
        rules,
        threads,
        start,
    };
    let Ok(resting) = Vec::with_capacity(alloc, 64 * threads as usize) else {
        return Err(NoMemory);
    };
    let rows = Rows {
        next: 1,
        draining: false,
        round: 0,
        resting,
    };
    let Ok(mut slots) = Vec::with_capacity(alloc, 1) else {
        return Err(NoMemory);
    };
    slots.push_reserved(Some(rows));
    match Table::new(alloc, &[0, 0], slots, &terms) {
        Ok((table, maker)) => Ok(LockBoard {
            table,
            maker,
            terms,
            given: 0,
        }),
        Err(_) => Err(NoMemory),
    }
}

impl<V: Faced> LockBoard<V> {
    ghost use Rattle.std.specs.Prelude.{[]};
    ghost use Rattle.hx_lockboard.specs.declared.seat.LockSeat.{LockSeat};
    ghost use Rattle.hx_lockboard.specs.Boards.{IsCut, IsFirst};

    // One seat cut off the board's own for each thread, in order.
    fn cut(&mut self, alloc: Global) -> Result<Vec<Seat<Option<Rows<V>>, View>>, NoMemory>
        requires first { self.old.given ≡ 0 }
        ensures seats { IfOk result (λ v. (length v.items ≡ self.old.terms.threads)
            × ((k : ℕ) (s : Seat (Option (Rows V)) View) → slice_get v.items k ≡ Some s
            → IsCut s self.old k)) }
        ensures same { (self.new.terms ≡ self.old.terms)
            × (self.new.table.shared.table_id ≡ self.old.table.shared.table_id) }
    {
        let Ok(mut seats) = Vec::with_capacity(alloc, self.terms.threads as usize) else {
            return Err(NoMemory);
        };
        for thread in 0..self.terms.threads {
            self.given = thread + 1;
            let seat = self.table.shared.split_seat::<Give>(&mut self.maker);
            seats.push_reserved(seat);
        }
        Ok(seats)
    }

    fn seated<'a, R: Wait>(
        &'a self,
        rt: &'a R,
        alloc: Global,
        cut: Vec<Seat<Option<Rows<V>>, View>>,
    ) -> Result<Vec<LockSeat<'a, R, V>>, NoMemory>
        requires cut { (length cut.items ≡ self.now.terms.threads)
            × ((k : ℕ) (s : Seat (Option (Rows V)) View) → slice_get cut.items k ≡ Some s
            → IsCut s self.now k) }
        ensures seats { IfOk result (λ v. (length v.items ≡ self.now.terms.threads)
            × ((k : ℕ) (s : LockSeat R V) → slice_get v.items k ≡ Some s
            → IsFirst s self.now k)) }
    {
        let Ok(mut seats) = Vec::with_capacity(alloc, cut.len()) else {
            return Err(NoMemory);
        };
        let mut thread = 0;
        for seat in cut {
            let first = LockSeat::new(rt, &self.table.shared, seat, self.terms, ThreadNo(thread));
            seats.push_reserved(first);
            thread += 1;
        }
        Ok(seats)
    }

    /// One seat for each thread, in order. It is called once.
    pub fn seats<'a, R: Wait>(
        &'a mut self,
        rt: &'a R,
        alloc: Global,
    ) -> Result<Vec<LockSeat<'a, R, V>>, NoMemory>
        requires first { self.old.given ≡ 0 }
        ensures seats { IfOk result (λ v. (length v.items ≡ self.old.terms.threads)
            × ((k : ℕ) (s : LockSeat R V) → slice_get v.items k ≡ Some s
            → IsFirst s self.old k)) }
    {
        let cut = self.cut(alloc)?;
        self.seated(rt, alloc, cut)
    }
}
