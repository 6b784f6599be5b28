//! The table.
ghost use Rattle.std.specs.Prelude.{◌≡◌, ℕ, ◌==◌, ◌&&◌, cond, None, Some, OnOk};
ghost use Rattle.hx_check_table.specs.Tables.{value_at};

use hx_base::NoMemory;
use std::alloc::Global;
use std::collections::BTreeMap;

/// At most one value at each three numbers. A look-up or a change takes a time that grows with the logarithm of its size.
#[derive(Drop)]
pub struct Table<X> {
    map: BTreeMap<(u64, u64, u64), X>,
}

impl<X: Copy + Drop> Table<X> {
    /// The table without a value.
    pub fn new(alloc: Global) -> Table<X>
        ensures { (a b c : ℕ) → value_at result a b c ≡ None }
    {
        Table {
            map: BTreeMap::new(alloc),
        }
    }

    /// The value at the numbers.
    pub fn at(&self, a: u64, b: u64, c: u64) -> Option<X>
        ensures { result ≡ value_at self.now a b c }
    {
        self.map.get(&(a, b, c)).copied()
    }

    /// Puts the value at the numbers, in place of one that is there. The one error is want of memory.
    pub fn put(&mut self, a: u64, b: u64, c: u64, value: X) -> Result<(), NoMemory>
        ensures { OnOk result ((x y z : ℕ)
            → value_at self.new x y z ≡ cond ((x == a && y == b) && z == c) (Some value) (value_at self.old x y z)) }
    {
        self.map.insert((a, b, c), value)?;
        Ok(())
    }
}
