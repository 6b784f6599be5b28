//! What had been left to do for each session of a replay that was stopped: nothing. A law, whose call does nothing.
#![tactic(auto)]

ghost use Rattle.hx_quiet.specs.Laws.{StoppedStoodStill};

/// Over the calls of a replay each session that was stopped stood still at the last moment: its step didn't move, and its client's
/// link and that of its connection were buried as that step left them.
pub fn stopped_stood_still()
    ensures { StoppedStoodStill }
{}
