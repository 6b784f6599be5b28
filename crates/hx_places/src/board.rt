//! A board, which gives a seat to each thread.
ghost use Rattle.std.specs.Prelude.{◌≡◌, ◌+◌, ◌*◌, ◌<◌, ◌≤◌, IfOk};
ghost use Rattle.hx_places.specs.declared.view.Role.TheVariants.{Makes};

use crate::rule::{Give, Places};
use crate::seat::PlaceSeat;
use crate::view::View;
use crate::words::{HEADS, NEXT, ROW};
use atomic_table::{Seat, Table};
use hx_base::{Faced, Millis, NoMemory, PoolRules, ServerNo, ThreadNo};
use hx_pool::BoardTerms;
use std::alloc::Global;

/// The words and slots of one server's idle connections.
#[derive(Drop)]
pub struct Board<V: Faced> {
    table: Table<Option<V>, View, BoardTerms, Places, Global>,
    maker: Seat<Option<V>, View>,
    pub terms: BoardTerms,
    /// For how many threads it has given a seat.
    pub given: u8,
    ghost seated: { (maker.table_id ≡ table.shared.table_id) × (table.shared.key ≡ terms) },
    ghost sized: { (table.shared.table_id.words ≡ 64 * terms.threads + 4)
        × (table.shared.table_id.slots ≡ 64 * terms.threads) × (terms.threads ≤ 16) },
    ghost makes: { (maker.me.0.role ≡ Makes) × (maker.me.0.thread.0 ≡ given)
        × (maker.me.0.terms ≡ terms) },
}

impl<V: Faced> Board<V> {
    ghost use Rattle.hx_places.specs.Boards.{AreCut, AreFirst};

    /// A board with a row for each of so many threads, where nothing rests. Purge intervals count
    /// from `start`.
    pub fn new(
        alloc: Global,
        server: ServerNo,
        rules: PoolRules,
        threads: u8,
        start: Millis,
    ) -> Result<Board<V>, NoMemory>
        requires threads { (0 < threads) × (threads ≤ 16) }
        ensures { IfOk result (λ b. (b.given ≡ 0) × (b.terms
            ≡ record { server = server; rules = rules; threads = threads; start = start })) }
    {
        let terms = BoardTerms {
            server,
            rules,
            threads,
            start,
        };
        let places = ROW * threads as usize;
        let mut words = Vec::from_elem(alloc, 0u64, places + HEADS)?;
        words[NEXT] = 1;
        let (table, maker) = Table::vacant(alloc, words.as_slice(), places, &terms)?;
        Ok(Board {
            table,
            maker,
            terms,
            given: 0,
        })
    }

    /// A token cut off the board's own for each thread, in order.
    fn cut(&mut self, alloc: Global) -> Result<Vec<Seat<Option<V>, View>>, NoMemory>
        requires first { self.old.given ≡ 0 }
        ensures tokens { IfOk result (λ v. AreCut self.old v.items) }
        ensures same { (self.new.terms ≡ self.old.terms)
            × (self.new.table.shared.table_id ≡ self.old.table.shared.table_id) }
    {
        let mut tokens = Vec::with_capacity(alloc, self.terms.threads as usize)?;
        for thread in 0..self.terms.threads {
            self.given = thread + 1;
            tokens.push(self.table.shared.split_seat::<Give>(&mut self.maker))?;
        }
        Ok(tokens)
    }

    fn seated(
        &self,
        alloc: Global,
        tokens: Vec<Seat<Option<V>, View>>,
    ) -> Result<Vec<PlaceSeat<'_, V>>, NoMemory>
        requires tokens { AreCut self.now tokens.items }
        ensures seats { IfOk result (λ v. AreFirst self.now v.items) }
    {
        let mut seats = Vec::with_capacity(alloc, tokens.len())?;
        let mut thread = 0;
        for token in tokens {
            let seat = PlaceSeat::new(&self.table.shared, token, self.terms, ThreadNo(thread));
            seats.push(seat)?;
            thread += 1;
        }
        Ok(seats)
    }

    /// One seat for each thread, in order. It is called once.
    pub fn seats(&mut self, alloc: Global) -> Result<Vec<PlaceSeat<'_, V>>, NoMemory>
        requires first { self.old.given ≡ 0 }
        ensures seats { IfOk result (λ v. AreFirst self.old v.items) }
    {
        let tokens = self.cut(alloc)?;
        self.seated(alloc, tokens)
    }
}
