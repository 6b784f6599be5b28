//! Byte pipes of fixed capacity.
ghost use Rattle.std.specs.Prelude.{◌≡◌, List, ℕ, ◌+◌, ◌≤◌, ◌-◌, min, length, take, drop, ◌++◌, [], IfOk};
ghost use Rattle.hx_link.specs.Pipes.{pipe, held_in};

use hx_base::NoMemory;
use std::alloc::Global;
use std::marker::Model;

/// Bytes in order, of which it holds at most its capacity. Only `new` takes memory.
#[derive(Drop)]
pub struct Pipe {
    /// As many bytes as the capacity. Those of the pipe lie in one piece, and the others mean nothing.
    memory: Vec<u8>,
    /// Where the pipe's first byte stands.
    start: usize,
    /// How many bytes the pipe holds.
    len: usize,
}

impl Model for Pipe {
    ghost use Rattle.std.specs.Prelude.{ℕ, ◌+◌, ◌≤◌, length};
    ghost use Rattle.hx_link.specs.Pipes.{PipeNow, pipe, held_in};

    ghost Value = { PipeNow };

    ghost view = { λ p. pipe (held_in p.start p.len p.memory.items) (length p.memory.items) };

    ghost invariant = { λ p. p.start + p.len ≤ length p.memory.items };
}

/// Sees to it that behind those bytes there is room for n more, and answers where they begin then. It moves them to
/// the front where what is behind them is too short.
fn make_room(memory: &mut Vec<u8>, start: usize, len: usize, n: usize) -> usize
    requires there { start + len ≤ length memory.old.items }
    requires fits { len + n ≤ length memory.old.items }
    ensures held { held_in result len memory.new.items ≡ held_in start len memory.old.items }
    ensures room { result + len + n ≤ length memory.new.items }
    ensures size { length memory.new.items ≡ length memory.old.items }
{
    if n <= memory.len() - len - start {
        return start;
    }
    memory.as_mut_slice().copy_within(start..start + len, 0);
    0
}

impl Pipe {
    ghost use Rattle.std.specs.Borrow.{sem};
    ghost use Rattle.hx_link.specs.PipeLends.{lends_more};

    /// An empty pipe of that capacity.
    pub fn new(alloc: Global, capacity: usize) -> Result<Pipe, NoMemory>
        ensures begins { IfOk result (λ p. p ≡ pipe [] capacity) }
    {
        let memory = vec![in alloc; 0; capacity]?;
        Ok(Pipe {
            memory,
            start: 0,
            len: 0,
        })
    }

    /// Takes the first bytes, as many as fit, and answers how many.
    pub fn fill(&mut self, bytes: &[u8]) -> usize
        ensures count { result ≡ min (length bytes.now)
            (self.old.capacity - length self.old.bytes) }
        ensures bytes { self.new ≡ pipe (self.old.bytes ++ take result bytes.now) self.old.capacity }
    {
        let n = bytes.len().min(self.room());
        self.grow(n).copy_from_slice(&bytes[..n]);
        n
    }

    /// Takes n bytes of its free room behind its own, which mean nothing until the caller has written them, and lends
    /// them in one piece. Those that aren't wanted go by `drop_back`.
    pub fn grow(&mut self, n: usize) -> &mut [u8]
        requires fits { length self.old.bytes + n ≤ self.old.capacity }
        ensures* writes_back { sem 𝓛 (lends_more self.entry result) }
        ensures size { length result.now ≡ n }
    {
        let len = self.len;
        let start = make_room(&mut self.memory, self.start, len, n);
        self.start = start;
        self.len = len + n;
        self.memory.slice_mut(start + len..start + len + n)
    }

    /// Drops the last bytes.
    pub fn drop_back(&mut self, n: usize)
        requires there { n ≤ length self.old.bytes }
        ensures bytes { self.new ≡ pipe (take (length self.old.bytes - n) self.old.bytes) self.old.capacity }
    {
        self.len -= n;
    }

    /// All bytes in one piece.
    pub fn whole(&self) -> &[u8]
        ensures value { result.now ≡ self.now.bytes }
    {
        &self.memory[self.start..self.start + self.len]
    }

    /// Drops the first bytes.
    pub fn drop_front(&mut self, n: usize)
        requires there { n ≤ length self.old.bytes }
        ensures bytes { self.new ≡ pipe (drop n self.old.bytes) self.old.capacity }
    {
        self.start += n;
        self.len -= n;
    }

    /// How many bytes it holds.
    pub fn len(&self) -> usize
        ensures len { result ≡ length self.now.bytes }
        ensures within { length self.now.bytes ≤ self.now.capacity }
    {
        self.len
    }

    /// How many bytes fit.
    pub fn room(&self) -> usize
        ensures room { length self.now.bytes + result ≡ self.now.capacity }
    {
        self.memory.len() - self.len
    }
}
