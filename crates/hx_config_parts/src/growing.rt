//! A list that grows at its end.
ghost use Rattle.std.specs.Prelude.{◌≡◌, [], ◌∷◌, ◌++◌, length, IfOk};

use hx_base::{Items, NoMemory};
use std::alloc::Global;
use std::marker::Model;

/// A vector that contracts see as the list of its items.
#[derive(Drop)]
pub struct Growing<T> {
    items: Vec<T>,
}

impl<T> Model for Growing<T> {
    ghost use Rattle.std.specs.Prelude.{List};
    ghost use Rattle.std.specs.Coded.{coded_list};

    ghost Value = { List T };

    ghost coded = { coded_list T.code };

    ghost view = { λ b. b.items.items };
}

impl<T> Growing<T> {
    pub fn new(alloc: Global) -> Growing<T>
        ensures { result ≡ [] }
    {
        Growing {
            items: Vec::new(alloc),
        }
    }

    pub fn len(&self) -> usize
        ensures { result ≡ length self.now }
    {
        self.items.len()
    }

    pub fn as_slice(&self) -> &[T]
        ensures { result.now ≡ self.now }
    {
        self.items.as_slice()
    }

    /// The allocator of the vector.
    pub fn allocator(&self) -> Global {
        *self.items.allocator()
    }

    pub fn into_vec(self) -> Vec<T>
        ensures { result.items ≡ self }
    {
        let Growing { items } = self;
        items
    }

    pub fn into_items(self) -> Items<T>
        ensures { result ≡ self }
    {
        Items::from_vec(self.into_vec())
    }
}

impl<T: Drop> Growing<T> {
    /// One more item at the end. The one error is want of memory.
    pub fn push(&mut self, item: T) -> Result<(), NoMemory>
        ensures { IfOk result (λ _. self.new ≡ self.old ++ item ∷ []) }
    {
        self.items.push(item)?;
        Ok(())
    }
}
