//! What follows from the clauses of a worker's step. Its call does nothing.
ghost use Rattle.hx_worker.specs.Headline.{StepsCarryHeadline};

/// From a worker's step alone each part of the headline follows, over any seats, any net and any links.
pub fn steps_carry_headline()
    ensures headline { StepsCarryHeadline }
{}
