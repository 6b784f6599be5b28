//! What a loop reports to the links that are registered at its poll: a word a link. The loop's thread notes there what
//! its poll tells, and the link takes it, which may be with another thread.

use hx_base::{NoMemory, ThreadNo};
use mio::Registry;
use std::alloc::Global;
use std::sync::Arc;
use std::sync::atomic::{AtomicU64, Ordering};

/// There are bytes or an end to read.
pub(crate) const READ: u64 = 1;

/// There is room to write.
pub(crate) const WRITE: u64 = 2;

/// The peer sends no more, or the connection broke. It stays.
pub(crate) const CLOSED: u64 = 4;

/// A link has the word.
const USED: u64 = 8;

/// Above it stands the number of the session that has the link, or 0.
const SESSION_SHIFT: u32 = 32;

/// The words of one loop, by token.
#[derive(Drop)]
pub(crate) struct Reports {
    /// The loop is that of this thread. No two loops have one.
    pub(crate) thread: ThreadNo,
    pub(crate) registry: Registry,
    /// The loop's thread sets bits, and gives free words to links. A link clears bits, and its last act frees the word.
    words: Vec<AtomicU64>,
}

impl Reports {
    pub(crate) fn new(
        alloc: Global,
        thread: ThreadNo,
        registry: Registry,
        count: usize,
    ) -> Result<Reports, NoMemory> {
        let mut words = Vec::with_capacity(alloc, count)?;
        for _ in 0..count {
            words.push(AtomicU64::new(0))?;
        }
        Ok(Reports {
            thread,
            registry,
            words,
        })
    }

    /// Takes a free word at or behind the cursor, round the end. The loop's thread alone calls it.
    pub(crate) fn take(&self, cursor: usize, session: u32) -> Option<usize> {
        let count = self.words.len();
        let cursor = cursor.min(count);
        for token in (cursor..count).chain(0..cursor) {
            if let Some(word) = self.words.get(token)
                && word.load(Ordering::SeqCst) & USED == 0
            {
                word.store(word_of(session), Ordering::SeqCst);
                return Some(token);
            }
        }
        None
    }

    /// Notes what the poll told of a token, and answers the session that has its link, or 0.
    pub(crate) fn note(&self, token: usize, bits: u64) -> u32 {
        match self.words.get(token) {
            Some(word) => (word.fetch_or(bits, Ordering::SeqCst) >> SESSION_SHIFT) as u32,
            None => 0,
        }
    }
}

/// The word of a link that a session has, with nothing reported.
fn word_of(session: u32) -> u64 {
    (session as u64) << SESSION_SHIFT | USED
}

/// A link's word at the loop where it is registered. The word is free again once this is gone.
pub(crate) struct Registered {
    pub(crate) reports: Arc<Reports, Global>,
    pub(crate) token: usize,
}

impl Registered {
    /// What was reported, of which these bits are taken. A link must take a bit before the call that it allows: what is
    /// reported later is then found by the next one.
    pub(crate) fn take_bits(&self, bits: u64) -> u64 {
        match self.reports.words.get(self.token) {
            Some(word) => {
                let seen = word.load(Ordering::SeqCst);
                if seen & bits != 0 {
                    word.fetch_and(!bits, Ordering::SeqCst);
                }
                seen
            }
            None => READ | WRITE,
        }
    }

    /// From now on it is this session's, or with 0 none's. The loop's thread alone calls it.
    pub(crate) fn hand_to(&self, session: u32) {
        if let Some(word) = self.reports.words.get(self.token) {
            let seen = word.load(Ordering::SeqCst) & (READ | WRITE | CLOSED);
            word.store(word_of(session) | seen, Ordering::SeqCst);
        }
    }
}

impl Drop for Registered {
    fn drop(self) {
        let Registered { reports, token } = self;
        if let Some(word) = reports.words.get(token) {
            word.store(0, Ordering::SeqCst);
        }
    }
}
