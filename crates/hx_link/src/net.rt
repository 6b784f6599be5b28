//! What dials, attaches and buries links.
ghost use Rattle.std.specs.Prelude.{◌≡◌, None};

use crate::link::Link;
use hx_base::{Address, ConnId, Millis, ServerNo, SessionNo, ThreadNo};

/// A net failed. Its count of faults rose.
#[derive(Clone, Copy, Debug, PartialEq, Eq)]
pub struct NetFault;

/// Dials links to servers, and attaches links to the loop of one thread.
pub trait Net {
    ghost use Rattle.hx_link.specs.Nets.{NetState, NetDials, NetAttaches, NetDetaches, NetBuries, OnlyFaults};

    type L: Link;

    // Its count of faults, its loop, and its dials and buried links where it tells them.
    ghost state: { Self → NetState };

    /// The thread to whose loop it attaches.
    fn loop_no(&self) -> ThreadNo
        ensures { result.0 ≡ (state self.now).loop_no };

    /// Opens a link to a server. It is attached to no loop yet.
    ///
    /// # Errors
    /// `NetFault` where the net failed.
    fn dial(
        &mut self,
        server: ServerNo,
        address: &Address,
        id: ConnId,
        now: Millis,
    ) -> Result<Self::L, NetFault>
        ensures dials { NetDials Self.L.state (state self.old) (state self.new) server id result };

    /// Attaches a link to the loop.
    ///
    /// # Errors
    /// `NetFault` where the net failed. The link is as it was.
    fn attach(&mut self, link: &mut Self::L) -> Result<(), NetFault>
        requires free { (Self.L.state link.old).on_loop ≡ None }
        ensures attaches { NetAttaches (state self.old) (state self.new)
            (Self.L.state link.old) (Self.L.state link.new) result };

    /// Attaches a link to no loop. Where the machine refuses, the link answers Failed from then on.
    fn detach(&mut self, link: &mut Self::L)
        ensures detaches { NetDetaches (state self.old) (state self.new)
            (Self.L.state link.old) (Self.L.state link.new) };

    /// Ends a link.
    fn bury(&mut self, link: Self::L)
        ensures buries { NetBuries (state self.old) (state self.new) (Self.L.state link) };

    /// Says for which session links are attached from now on, so that `next_news` can name it. A net that gives no news
    /// does nothing.
    fn attach_for(&mut self, _session: SessionNo)
        ensures attaches_for { state self.new ≡ state self.old }
    {}

    /// The next session of whose links the last pause reported something. A net that gives no news answers None.
    fn next_news(&mut self) -> Option<SessionNo>
        ensures tells { state self.new ≡ state self.old }
    {
        None
    }

    /// Waits up to the limit for a link that is attached, or doesn't wait.
    fn pause(&mut self, limit: Millis)
        ensures pauses { OnlyFaults (state self.old) (state self.new) };
}
