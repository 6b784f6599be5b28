//! A lane, which gives its ends to three threads.
ghost use Rattle.std.specs.Prelude.{◌≡◌, false};
ghost use Rattle.crossbeam_queue.specs.Passes.{view, IsPassOf};
ghost use Rattle.hx_handoff.specs.Rule.{first_view, giver_view, after_cut};

use crate::giver::Giver;
use crate::rule::{Cut, Handed, Leave, Queue, View};
use crate::taker::Taker;
use crossbeam_queue::Pass;

/// Carries items of two givers to one taker.
#[derive(Drop)]
pub struct Lane<T> {
    pub(crate) queue: Queue<T>,
    /// Off this pass the taker's is cut.
    pub(crate) pass: Pass<Handed<T>, View<T>>,
    /// The ends were handed out.
    pub given: bool,
    ghost seated: { IsPassOf queue pass },
    ghost unused: { given ≡ false → view pass ≡ first_view },
}

impl<T> Lane<T> {
    ghost use Rattle.hx_handoff.specs.Lanes.{new_giver, new_taker};
    ghost use Rattle.hx_handoff.specs.LaneViews.{lane_id, lane_capacity};

    // The passes of the two givers and of the taker.
    fn cut(
        &mut self,
    ) -> (
        Pass<Handed<T>, View<T>>,
        Pass<Handed<T>, View<T>>,
        Pass<Handed<T>, View<T>>,
    )
        requires unused { self.old.given ≡ false }
        ensures seated { IsPassOf self.old.queue result.0 × IsPassOf self.old.queue result.1
            × IsPassOf self.old.queue result.2 }
        ensures givers { (view result.0 ≡ giver_view 0) × (view result.1 ≡ giver_view 1) }
        ensures taker { view result.2 ≡ after_cut (after_cut first_view) }
        ensures queue { self.new.queue ≡ self.old.queue }
    {
        self.given = true;
        let mut taker = self.queue.another::<Leave>(&mut self.pass);
        let first = self.queue.another::<Cut>(&mut taker);
        let second = self.queue.another::<Cut>(&mut taker);
        (first, second, taker)
    }

    // The ends with these passes.
    fn seat(
        &self,
        first: Pass<Handed<T>, View<T>>,
        second: Pass<Handed<T>, View<T>>,
        taker: Pass<Handed<T>, View<T>>,
    ) -> (Giver<'_, T>, Giver<'_, T>, Taker<'_, T>)
        requires seated { IsPassOf self.now.queue first × IsPassOf self.now.queue second
            × IsPassOf self.now.queue taker }
        requires givers { (view first ≡ giver_view 0) × (view second ≡ giver_view 1) }
        requires taker { view taker ≡ after_cut (after_cut first_view) }
        ensures first { result.0 ≡ new_giver (lane_id self.now) (lane_capacity self.now) 0 }
        ensures second { result.1 ≡ new_giver (lane_id self.now) (lane_capacity self.now) 1 }
        ensures taker { result.2 ≡ new_taker (lane_id self.now) }
    {
        (
            Giver::new(&self.queue, first, 0),
            Giver::new(&self.queue, second, 1),
            Taker::new(&self.queue, taker),
        )
    }

    /// The two givers and the taker. It is called once.
    pub fn ends(&mut self) -> (Giver<'_, T>, Giver<'_, T>, Taker<'_, T>)
        requires unused { self.old.given ≡ false }
        ensures first { result.0 ≡ new_giver (lane_id self.old) (lane_capacity self.old) 0 }
        ensures second { result.1 ≡ new_giver (lane_id self.old) (lane_capacity self.old) 1 }
        ensures taker { result.2 ≡ new_taker (lane_id self.old) }
    {
        let (first, second, taker) = self.cut();
        self.seat(first, second, taker)
    }
}
