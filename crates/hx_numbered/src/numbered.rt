//! Values under numbers.
ghost use Rattle.std.specs.Prelude.{◌≡◌, ◌+◌, ◌<◌, ◌≤◌, [], ◌∷◌, ◌++◌, length, IfOk, IfErr, IsOk, OnOk, Some, option_copied};
ghost use Rattle.std.specs.Option.{option_copied_mut};
ghost use Rattle.std.specs.Borrow.{sem};
ghost use Rattle.hx_numbered.specs.Numbers.{IsRising, AreBelow, IsAt, IsGapFor, IsJustAbove, value_of, removed, number_above};

use hx_base::NoMemory;
use slab::Slab;
use std::alloc::Global;
use std::marker::Model;

/// Values under numbers. Each new number is above all others, so the numbers rise.
#[derive(Drop)]
pub struct Numbered<T> {
    // By key.
    slab: Slab<T>,
    // The numbers, rising, each with its value's key.
    order: Vec<(u32, usize)>,
}

impl<T> Model for Numbered<T> {
    ghost use Rattle.std.specs.Prelude.{vec_capacity};
    ghost use Rattle.hx_numbered.specs.Numbered.{Numbered as Items, numbered_code};
    ghost use Rattle.hx_numbered.specs.Listed.{seen, IsListed};

    ghost Value = { Items T };

    ghost coded = { numbered_code T.code };

    ghost view = { λ s. seen s.slab s.order.items (vec_capacity s.order) };

    ghost invariant = { λ s. IsListed s.slab.slots s.order.items };
}

/// Where the number is, or where it would go.
fn search(order: &[(u32, usize)], number: u32) -> Result<usize, usize>
    requires { IsRising order.now }
    ensures found { IfOk result (IsAt order.now number) }
    ensures absent { IfErr result (IsGapFor order.now number) }
{
    order.binary_search_by_key(&number, |&(n, _)| n)
}

/// The place of the first number above this one.
fn place_above(order: &[(u32, usize)], number: u32) -> usize
    requires { IsRising order.now }
    ensures { IsJustAbove order.now number result }
{
    match search(order, number) {
        Ok(at) => at + 1,
        Err(at) => at,
    }
}

impl<T> Numbered<T> {
    ghost use Rattle.hx_numbered.specs.Lends.{lends_value};

    /// No values, and no memory until room is made.
    pub fn new(alloc: Global) -> Numbered<T>
        ensures { result.items ≡ [] }
    {
        Numbered {
            slab: Slab::new(alloc),
            order: Vec::new(alloc),
        }
    }

    /// How many values there are.
    pub fn len(&self) -> usize
        ensures count { result ≡ length self.now.items }
        ensures rising { IsRising self.now.items }
    {
        self.order.as_slice().len()
    }

    /// Makes room for so many more values.
    ///
    /// # Errors
    /// `NoMemory`; nothing but room changes.
    pub fn reserve(&mut self, more: usize) -> Result<(), NoMemory>
        ensures room { OnOk result (more ≤ self.new.room) }
        ensures items { self.new.items ≡ self.old.items }
        ensures succeeds { 0 < more → more ≤ self.old.room → IsOk result }
    {
        if self.order.reserve(more).is_err() || self.slab.reserve(more).is_err() {
            return Err(NoMemory);
        }
        Ok(())
    }

    /// Puts a value under a number above all others. There is room for it.
    pub fn insert_reserved(&mut self, number: u32, value: T)
        requires room { 1 ≤ self.old.room }
        requires greatest { AreBelow self.old.items number }
        ensures items { self.new.items ≡ self.old.items ++ (number, value) ∷ [] }
        ensures room { self.new.room + 1 ≡ self.old.room }
    {
        let key = self.slab.insert_reserved(value);
        self.order.push_reserved((number, key));
    }

    /// The value under this number, if there is one.
    pub fn get(&self, number: u32) -> Option<&T>
        ensures { option_copied result ≡ value_of self.now.items number }
    {
        match search(self.order.as_slice(), number) {
            Ok(at) => self.slab.get(self.order[at].1),
            Err(_) => None,
        }
    }

    /// The value under this number for writing, if there is one.
    pub fn get_mut(&mut self, number: u32) -> Option<&mut T>
        ensures* writes_back { sem 𝓛 (lends_value T.row self.entry number result) }
        ensures value { option_copied_mut result ≡ value_of self.old.items number }
    {
        match search(self.order.as_slice(), number) {
            Ok(at) => self.slab.get_mut(self.order[at].1),
            Err(_) => None,
        }
    }

    /// Takes out the value under this number, if there is one.
    pub fn remove(&mut self, number: u32) -> Option<T>
        ensures value { result ≡ value_of self.old.items number }
        ensures rest { self.new.items ≡ removed self.old.items number }
        ensures room { self.old.room ≤ self.new.room }
    {
        match search(self.order.as_slice(), number) {
            Ok(at) => {
                let (_, key) = self.order.remove(at);
                self.slab.try_remove(key)
            }
            Err(_) => None,
        }
    }

    /// The least number above this one, if there is one.
    pub fn number_above(&self, number: u32) -> Option<u32>
        ensures { result ≡ number_above self.now.items number }
    {
        let at = place_above(self.order.as_slice(), number);
        match self.order.get(at) {
            Some(&(n, _)) => Some(n),
            None => None,
        }
    }
}
