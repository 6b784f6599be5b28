//! The end of a lane that collects items.
ghost use Rattle.std.specs.Prelude.{◌≡◌, ℕ, MatchOption, IfNone};
ghost use Rattle.crossbeam_queue.specs.Passes.{view, IsPassOf};

use crate::giver::Giver;
use crate::rule::{Collect, Handed, Queue, Settle, View};
use crossbeam_queue::Pass;
use std::marker::Model;
use std::sync::Wait;

/// Collects the items of both givers.
#[derive(Drop)]
pub struct Taker<'a, T> {
    queue: &'a Queue<T>,
    pass: Pass<Handed<T>, View<T>>,
}

impl<'a, T> Model for Taker<'a, T> {
    ghost use Rattle.hx_handoff.specs.Lanes.{TakerNow};

    ghost Value = { TakerNow T };

    ghost use Rattle.hx_handoff.specs.LaneViews.{taker_now, KeepsTaker};

    ghost view = { taker_now };

    ghost invariant = { KeepsTaker };
}

impl<'a, T> Taker<'a, T> {
    ghost use Rattle.hx_handoff.specs.Lanes.{new_taker, with_one, with_ended, IsGiver, IsInOrder, IsAllOf};
    ghost use Rattle.hx_handoff.specs.Rule.{first_view, after_cut};

    pub(crate) fn new(queue: &'a Queue<T>, pass: Pass<Handed<T>, View<T>>) -> Taker<'a, T>
        requires seated { IsPassOf queue.now pass }
        requires view { view pass ≡ after_cut (after_cut first_view) }
        ensures { result ≡ new_taker pass.table_id }
    {
        Taker { queue, pass }
    }

    /// Takes the item that waits longest, or none where the lane was empty. It waits for none.
    pub fn collect<R: Wait>(&mut self, rt: &R) -> Option<T>
        ensures collected { MatchOption result
            (self.new ≡ self.old)
            (λ x. (giver : ℕ) × IsGiver giver × (self.new ≡ with_one self.old giver x)) }
        ensures order { IsInOrder self.new.collected self.new.settled }
        ensures empty { IfNone result (IsAllOf self.old.collected self.old.settled) }
    {
        let handed = self.queue.pop_as::<Collect, R>(rt, &mut self.pass)?;
        Some(handed.item)
    }

    /// Ends a giver of this lane. What it handed in and what isn't collected yet is still collected.
    pub fn settle<R: Wait>(&mut self, _rt: &R, giver: Giver<'_, T>)
        requires lane { giver.lane ≡ self.old.lane }
        ensures settled { self.new ≡ with_ended self.old giver.entry }
        ensures order { IsInOrder self.new.collected self.new.settled }
    {
        let Giver { pass, .. } = giver;
        self.queue.absorb::<Settle>(&mut self.pass, pass);
        self.queue.learn_as::<Collect>(&mut self.pass);
    }
}
