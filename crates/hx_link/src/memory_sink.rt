//! A sink in memory.
ghost use Rattle.std.specs.Prelude.{◌≡◌, ◌≤◌, ◌<◌, length, IfOk, Some};
ghost use Rattle.hx_link.specs.MemorySources.{new_sink, MemorySinkWrites};

use crate::answers::Put;
use crate::source::Sink;
use hx_base::NoMemory;
use std::alloc::Global;
use std::marker::Model;

/// Takes what fits into its room. The calls that `fails` names, counted from 1, fail.
#[derive(Drop)]
pub struct MemorySink {
    bytes: Vec<u8>,
    room: usize,
    fails: Vec<u64>,
    calls: u64,
    faults: u64,
}

impl Model for MemorySink {
    ghost use Rattle.hx_link.specs.MemorySources.{MemorySinkNow};

    ghost Value = { MemorySinkNow };

    ghost use Rattle.std.specs.Prelude.{◌≤◌, length, vec_capacity};
    ghost use Rattle.hx_link.specs.MemoryViews.{sink_view};

    ghost view = { sink_view };

    ghost invariant = { λ s. (length s.bytes.items ≤ s.room) × (s.room ≤ vec_capacity s.bytes) };
}

impl MemorySink {
    /// Reserves the room, so that no write takes memory.
    pub fn new(alloc: Global, room: usize, fails: Vec<u64>) -> Result<MemorySink, NoMemory>
        ensures begins { IfOk result (λ s. s ≡ new_sink room fails.items) }
    {
        let bytes = Vec::with_capacity(alloc, room)?;
        Ok(MemorySink {
            bytes,
            room,
            fails,
            calls: 0,
            faults: 0,
        })
    }

    /// All that it took.
    pub fn taken(&self) -> &[u8]
        ensures taken { Some result.now ≡ self.now.state.taken }
    {
        self.bytes.as_slice()
    }
}

impl Sink for MemorySink {
    ghost use Rattle.hx_link.specs.Sources.{PutFits, SinkWrites};

    ghost state = { λ s. s.state };

    fn write(&mut self, bytes: &[u8]) -> Put
        requires some { 0 < length bytes.now }
        ensures fits { PutFits result (length bytes.now) }
        ensures writes { SinkWrites self.old.state self.new.state result bytes.now }
        ensures answers { MemorySinkWrites self.old self.new (length bytes.now) result }
    {
        self.calls = self.calls.saturating_add(1);
        let left = self.room - self.bytes.len();
        if left == 0 || self.fails.as_slice().contains(&self.calls) {
            self.faults = self.faults.saturating_add(1);
            return Put::Failed;
        }
        let n = bytes.len().min(left);
        match self.bytes.extend_from_slice(&bytes[..n]) {
            Ok(()) => Put::Bytes(n),
            Err(_) => {
                self.faults = self.faults.saturating_add(1);
                Put::Failed
            }
        }
    }
}
