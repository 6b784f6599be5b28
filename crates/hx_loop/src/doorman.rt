//! The thread at the door: it accepts clients and hands them to the workers in turn.

use crate::guest::{Carried, Guest};
use hx_base::{Millis, ThreadNo};
use hx_doors::{Accepted, Door};
use hx_handoff::{Errand, Giver, LaneFull};
use hx_link::Link;
use std::sync::Wait;
use std::sync::atomic::{AtomicU64, Ordering};

/// How long the door waits for a client at a time, in milliseconds.
const WAIT: Millis = Millis(50);

/// How many clients it accepts at most before it wakes their workers.
const MOST_AT_ONCE: u32 = 64;

/// How often it asks the door at most once a stop has come.
const MOST_LAST: u32 = 1_024;

/// The lanes to the workers.
#[derive(Drop)]
pub struct Lanes<'a, L: Link> {
    givers: Vec<Giver<'a, Carried<L>>>,
    /// Whose turn it is.
    next: usize,
    /// To whom something was handed since the last wakes, a bit a worker.
    laid: u32,
}

impl<'a, L: Link> Lanes<'a, L> {
    pub fn new(givers: Vec<Giver<'a, Carried<L>>>) -> Lanes<'a, L> {
        Lanes {
            givers,
            next: 0,
            laid: 0,
        }
    }

    /// Hands an errand to that worker, or gives it back where the lane is full.
    fn hand_to<R: Wait>(
        &mut self,
        rt: &R,
        at: usize,
        errand: Carried<L>,
    ) -> Result<(), LaneFull<Carried<L>>> {
        let Some(giver) = self.givers.get_mut(at) else {
            return Err(LaneFull(errand));
        };
        giver.hand(rt, errand)?;
        if at < 32 {
            self.laid |= 1 << at;
        }
        Ok(())
    }

    /// Hands an errand to the next worker whose lane has room, or gives it back where all are full.
    fn hand_round<R: Wait>(&mut self, rt: &R, errand: Carried<L>) -> Option<Carried<L>> {
        let mut errand = errand;
        for _ in 0..self.givers.len() {
            let at = self.next;
            self.next = if at.saturating_add(1) < self.givers.len() {
                at.saturating_add(1)
            } else {
                0
            };
            match self.hand_to(rt, at, errand) {
                Ok(()) => return None,
                Err(LaneFull(back)) => errand = back,
            }
        }
        Some(errand)
    }

    /// Wakes the workers to whom something was handed.
    fn wake<D: Door>(&mut self, door: &D) {
        for at in 0..16u8 {
            if self.laid & (1 << at) != 0 {
                door.wake(ThreadNo(at));
            }
        }
        self.laid = 0;
    }

    /// Hands a client on, once there is room for it.
    fn hand_on<R: Wait, D: Door>(&mut self, rt: &R, door: &D, front: u16, guest: Guest<L>) {
        let mut errand = Errand::Client(front, guest);
        for _ in rt.forever() {
            match self.hand_round(rt, errand) {
                None => break,
                Some(back) => errand = back,
            }
            self.wake(door);
        }
    }

    /// Tells each worker to stop.
    fn stop<R: Wait, D: Door>(&mut self, rt: &R, door: &D) {
        for at in 0..self.givers.len() {
            for _ in rt.forever() {
                if self.hand_to(rt, at, Errand::Stop).is_ok() {
                    break;
                }
                self.wake(door);
            }
        }
        self.wake(door);
    }

    /// Asks the door once, and hands on the client that it gives. It says whether there was one.
    fn ask<R: Wait, D: Door<L = L>>(&mut self, rt: &R, door: &mut D, limit: Millis) -> bool {
        match door.accept(limit) {
            Accepted::Client(front, link) => {
                self.hand_on(rt, door, front, Guest::new(link));
                true
            }
            Accepted::NotYet | Accepted::Failed => false,
        }
    }

    /// Asks without waiting until the door gives none, some times at most.
    fn ask_on<R: Wait, D: Door<L = L>>(&mut self, rt: &R, door: &mut D, most: u32) {
        for _ in 0..most {
            if !self.ask(rt, door, Millis(0)) {
                break;
            }
        }
        self.wake(door);
    }

    /// Accepts clients until a stop comes. Then it hands on those that wait, and tells the workers.
    pub fn serve<R: Wait, D: Door<L = L>>(&mut self, rt: &R, door: &mut D, stopped: &AtomicU64) {
        for _ in rt.forever() {
            if stopped.load(Ordering::SeqCst) != 0 {
                break;
            }
            if self.ask(rt, door, WAIT) {
                self.ask_on(rt, door, MOST_AT_ONCE);
            }
        }
        self.ask_on(rt, door, MOST_LAST);
        self.stop(rt, door);
    }
}
