//! Numbers with names of their own.

use std::alloc::{AllocError, AllocFailed};

/// A worker thread, counted from 0. There are at most 16.
#[derive(Clone, Copy, PartialEq, Eq, Debug)]
pub struct ThreadNo(pub u8);

/// A server, counted from 0 over the whole configuration.
#[derive(Clone, Copy, PartialEq, Eq, Debug)]
pub struct ServerNo(pub u16);

/// A session of a worker, counted from 1. 0 is the caretaker, which purges and drains.
#[derive(Clone, Copy, PartialEq, Eq, Debug)]
pub struct SessionNo(pub u32);

/// A connection to a server, counted from 1 in the order of opening.
#[derive(Clone, Copy, PartialEq, Eq, Debug)]
pub struct ConnId(pub u64);

/// A place where a connection rests: one of the 64 places of a thread's row.
#[derive(Clone, Copy, PartialEq, Eq, Debug)]
pub struct PlaceNo {
    /// The thread that owns the row.
    pub row: u8,
    /// Below 64.
    pub place: u8,
}

/// What a board shows of a resting connection. The use count tells two rests of one connection apart.
#[derive(Clone, Copy, PartialEq, Eq, Debug)]
pub struct Face {
    pub id: ConnId,
    /// How many whole exchanges the connection has carried.
    pub uses: u16,
}

/// A moment or a time in milliseconds.
#[derive(Clone, Copy, PartialEq, Eq, Debug)]
pub struct Millis(pub u64);

/// A range of bytes, counted from the first byte of its link.
#[derive(Clone, Copy, PartialEq, Eq, Debug)]
pub struct Span {
    pub from: u64,
    /// Not included.
    pub to: u64,
}

/// Want of memory.
#[derive(Clone, Copy, PartialEq, Eq, Debug)]
pub struct NoMemory;

/// A seat that has opened as many connections as it may.
#[derive(Clone, Copy, PartialEq, Eq, Debug)]
pub struct OutOfIds;

impl From<AllocError> for NoMemory {
    fn from(_: AllocError) -> NoMemory {
        NoMemory
    }
}

impl<T: Drop> From<AllocFailed<T>> for NoMemory {
    fn from(_: AllocFailed<T>) -> NoMemory {
        NoMemory
    }
}
