//! Why each record of a replay was told. A law, whose call does nothing.
#![tactic(auto)]

ghost use Rattle.hx_causes.specs.Laws.{CausesHold};

/// Over the calls of a replay each own answer, each cut and each end of a session that was told had its cause in a step of that
/// session, at a moment of the script.
pub fn replays_have_causes()
    ensures { CausesHold }
{}
