//! An end of a lane that hands items in.
ghost use Rattle.std.specs.Prelude.{◌≡◌, MatchResult, OnErr};
ghost use Rattle.crossbeam_queue.specs.Passes.{view, IsPassOf, ruled_capacity};

use crate::rule::{Hand, Handed, Queue, View};
use crossbeam_queue::Pass;
use std::marker::Model;
use std::sync::Wait;

/// The lane was full. Here is the item.
#[derive(Drop)]
pub struct LaneFull<T>(pub T);

/// Hands items in.
#[derive(Drop)]
pub struct Giver<'a, T> {
    queue: &'a Queue<T>,
    pub(crate) pass: Pass<Handed<T>, View<T>>,
    /// It tells the two givers of a lane apart.
    number: u8,
}

impl<'a, T> Model for Giver<'a, T> {
    ghost use Rattle.hx_handoff.specs.Lanes.{GiverNow};

    ghost Value = { GiverNow T };

    ghost use Rattle.hx_handoff.specs.LaneViews.{giver_now, KeepsGiver};

    ghost view = { giver_now };

    ghost invariant = { KeepsGiver };
}

impl<'a, T> Giver<'a, T> {
    ghost use Rattle.hx_handoff.specs.Lanes.{new_giver, with_item, WasFull};
    ghost use Rattle.hx_handoff.specs.Rule.{giver_view};

    pub(crate) fn new(
        queue: &'a Queue<T>,
        pass: Pass<Handed<T>, View<T>>,
        number: u8,
    ) -> Giver<'a, T>
        requires seated { IsPassOf queue.now pass }
        requires view { view pass ≡ giver_view number }
        ensures { result ≡ new_giver pass.table_id (ruled_capacity queue.now) number }
    {
        Giver {
            queue,
            pass,
            number,
        }
    }

    /// Hands an item in. It waits for no room.
    ///
    /// # Errors
    /// `LaneFull` with the item where the lane was full.
    pub fn hand<R: Wait>(&mut self, rt: &R, item: T) -> Result<(), LaneFull<T>>
        ensures handed { MatchResult result
            (λ _. self.new ≡ with_item self.old item)
            (λ back. (back.0 ≡ item) × (self.new ≡ self.old)) }
        ensures full { OnErr result (WasFull self.old) }
    {
        let handed = Handed {
            giver: self.number,
            item,
        };
        match self.queue.push_as::<Hand, R>(rt, &mut self.pass, handed) {
            Ok(()) => Ok(()),
            Err(back) => Err(LaneFull(back.item)),
        }
    }
}
