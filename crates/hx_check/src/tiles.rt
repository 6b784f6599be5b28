//! The fifth rule, over connections.
ghost use Rattle.std.specs.Prelude.{MatchOption};
ghost use Rattle.hx_check_parts.specs.Each.{HoldsOfEach};
ghost use Rattle.hx_check.specs.Conns.{IsFirst};
ghost use Rattle.hx_check.specs.Rules.{ConnIn};

use hx_check_parts::{Records, sent_holds, took_holds};
use hx_script::ConnBytes;

/// Where a connection breaks the rule.
#[derive(Clone, Copy)]
pub(crate) enum ConnBreak {
    /// What was sent on the connection at that index.
    Sent(usize),
    /// What was read of it.
    Took(usize),
}

/// The first connection that breaks the rule.
pub(crate) fn first_conn(records: &Records<'_>, conns: &[ConnBytes]) -> Option<ConnBreak>
    ensures { MatchOption result (HoldsOfEach (ConnIn records.now) conns.now)
        (IsFirst records.now conns.now) }
{
    for (k, conn) in conns.iter().enumerate() {
        if !sent_holds(records, conn) {
            return Some(ConnBreak::Sent(k));
        }
        if !took_holds(records, conn) {
            return Some(ConnBreak::Took(k));
        }
    }
    None
}
