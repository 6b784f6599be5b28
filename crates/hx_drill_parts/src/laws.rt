//! What the first sessions of a load ask for, by computation alone.
ghost use Rattle.hx_drill_parts.specs.Samples.{FirstTwo, FirstFour};

/// The sums of the first two sessions and of the first four. It is a law: the call does nothing.
pub fn samples()
    ensures two { FirstTwo }
    ensures four { FirstFour }
{}
