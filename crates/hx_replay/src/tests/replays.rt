//! Worked scripts, whose transcripts are known.

mod exchanges;
mod pools;
mod troubles;

use super::{NEVER, run_bytes};
use std::test::Fail;

/// A script and its transcript.
#[derive(Clone, Copy)]
pub struct Case {
    pub script: &'static [u8],
    pub transcript: &'static [u8],
}

/// The script's replay prints the transcript.
fn show(rt: &HostRuntime, case: Case) -> Result<bool, Fail> {
    let ran = run_bytes(rt, "replay", case.script, NEVER)?;
    Ok(ran.status == 0 && ran.text.as_slice() == case.transcript)
}

#[test]
fn exchanges_follow_each_other(rt: HostRuntime) -> Result<(), Fail> {
    assert!(rt; show(&rt, exchanges::PIPELINED)?, "pipelined");
    assert!(rt; show(&rt, exchanges::CHUNKS)?, "chunks");
    assert!(rt; show(&rt, exchanges::HEAD)?, "head");
    assert!(rt; show(&rt, exchanges::FIELDS)?, "fields");
    assert!(rt; show(&rt, exchanges::IN_TURN)?, "in_turn");
    assert!(rt; show(&rt, exchanges::ONE_DRAINS)?, "one_drains");
    Ok(())
}

#[test]
fn connections_rest_as_modes_limits_rounds_and_drains_have_it(rt: HostRuntime) -> Result<(), Fail> {
    assert!(rt; show(&rt, pools::SAFE)?, "safe");
    assert!(rt; show(&rt, pools::AGGRESSIVE)?, "aggressive");
    assert!(rt; show(&rt, pools::NEVER)?, "never");
    assert!(rt; show(&rt, pools::NONE_RESTS)?, "none_rests");
    assert!(rt; show(&rt, pools::ONE_RESTS)?, "one_rests");
    assert!(rt; show(&rt, pools::ROUND)?, "round");
    assert!(rt; show(&rt, pools::DRAIN)?, "drain");
    assert!(rt; show(&rt, pools::ENDED_AT_REST)?, "ended_at_rest");
    assert!(rt; show(&rt, pools::SPOKE_AT_REST)?, "spoke_at_rest");
    Ok(())
}

#[test]
fn cuts_and_own_answers_have_their_records(rt: HostRuntime) -> Result<(), Fail> {
    assert!(rt; show(&rt, troubles::CUT)?, "cut");
    assert!(rt; show(&rt, troubles::NO_ANSWER)?, "no_answer");
    assert!(rt; show(&rt, troubles::SECOND_CUT)?, "second_cut");
    assert!(rt; show(&rt, troubles::BOTH_LENGTHS)?, "both_lengths");
    assert!(rt; show(&rt, troubles::VERSION)?, "version");
    assert!(rt; show(&rt, troubles::CLIENT_LATE)?, "client_late");
    assert!(rt; show(&rt, troubles::SERVER_LATE)?, "server_late");
    assert!(rt; show(&rt, troubles::NO_CONNECTION)?, "no_connection");
    Ok(())
}
