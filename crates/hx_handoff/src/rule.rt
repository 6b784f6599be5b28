//! The rule of a lane, and what each of its steps tells. But for `Handed`, no value of these types is made.

use crossbeam_queue::RuledArrayQueue;
use crossbeam_queue::protocol::{Join, Lesson, Outcome, Protocol, Split};
use std::collections::LinkedList;

/// An item on its way.
#[derive(Drop)]
pub struct Handed<T> {
    /// The number of the giver that handed it in, from 0.
    pub giver: u8,
    pub item: T,
}

/// A giver that has ended.
pub struct Settled<T> {
    pub giver: u8,
    /// All that it handed in.
    pub handed: LinkedList<T>,
}

pub enum Role {
    /// It collects, and cuts off the givers.
    Taking,
    /// It hands in.
    Giving,
    /// Nothing is known of it.
    Spent,
}

/// What one end of a lane knows.
pub struct View<T> {
    pub role: Role,
    /// A giver's own number, or how many givers the taker has cut off.
    pub number: u8,
    pub handed: LinkedList<T>,
    pub collected: LinkedList<Handed<T>>,
    pub settled: LinkedList<Settled<T>>,
}

pub(crate) type Queue<T> = RuledArrayQueue<Handed<T>, View<T>, InOrder>;

/// What was collected and what the lane holds is, of each giver, what it handed in.
pub(crate) struct InOrder;

impl<T> Protocol<Handed<T>, View<T>> for InOrder {
    ghost use Rattle.hx_handoff.specs.Rule.{IsLane, first_view};

    ghost holds = { IsLane };

    ghost first = { first_view };
}

/// The pass that a lane was made with goes to its taker.
pub(crate) struct Leave;

impl<T> Split<View<T>> for Leave {
    ghost use Rattle.hx_handoff.specs.Rule.{spent_view};

    ghost left = { λ v. spent_view };

    ghost right = { λ v. v };
}

/// The taker cuts off the next giver.
pub(crate) struct Cut;

impl<T> Split<View<T>> for Cut {
    ghost use Rattle.hx_handoff.specs.Rule.{after_cut, giver_view};

    ghost left = { after_cut };

    ghost right = { λ v. giver_view v.number };
}

/// An item is handed in, or the lane is full.
pub(crate) struct Hand;

impl<T> Outcome<Handed<T>, View<T>> for Hand {
    ghost use Rattle.std.specs.Prelude.{◌≡◌};
    ghost use Rattle.hx_handoff.specs.Rule.{with_handed};

    ghost then = { λ v x w. w ≡ with_handed v x.item };
}

impl<T> Lesson<Handed<T>, View<T>> for Hand {
    ghost use Rattle.hx_handoff.specs.Lanes.{HoldsLast};

    ghost fact = { λ v items. HoldsLast v.number v.handed items };
}

/// An item is collected, or the lane is empty.
pub(crate) struct Collect;

impl<T> Outcome<Handed<T>, View<T>> for Collect {
    ghost use Rattle.std.specs.Prelude.{◌≡◌, ◌<◌};
    ghost use Rattle.hx_handoff.specs.Lanes.{IsInOrder};
    ghost use Rattle.hx_handoff.specs.Rule.{with_collected};

    ghost then = { λ v x w. (w ≡ with_collected v x) × IsInOrder w.collected w.settled × (x.giver < v.number) };
}

impl<T> Lesson<Handed<T>, View<T>> for Collect {
    ghost use Rattle.std.specs.Prelude.{◌++◌};
    ghost use Rattle.hx_handoff.specs.Lanes.{IsAllOf};

    ghost fact = { λ v items. IsAllOf (v.collected ++ items) v.settled };
}

/// A giver's pass goes to the taker.
pub(crate) struct Settle;

impl<T> Join<View<T>> for Settle {
    ghost use Rattle.hx_handoff.specs.Rule.{with_settled, spent_view};

    ghost both = { λ v w. with_settled v w.number w.handed };

    ghost spent = { spent_view };
}
