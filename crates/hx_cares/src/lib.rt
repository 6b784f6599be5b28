//! What the marks of each server of a replay show of its caretaker's orders and rounds. Laws, whose calls do nothing.
#![tactic(auto)]

ghost use Rattle.hx_cares.specs.Laws.{CaresHold, DrainsAreLast, MarksAreAsked};

/// Over the calls of a replay the marks of each server are those of its sessions, and in between those with which the caretaker
/// answered what it was asked for, in order: behind an order to drain until nothing rests, behind a new interval as many as the quota
/// says.
pub fn servers_are_cared_for()
    ensures { CaresHold }
{}

/// The SetGates and the Rounds among such marks are just those that were asked for.
pub fn marks_are_as_asked()
    ensures { MarksAreAsked }
{}

/// Where each server is drained at the end, behind all that was asked for before, its last SetGate is that of the drain.
pub fn drains_are_last()
    ensures { DrainsAreLast }
{}
