//! A net whose links mirror the load.
ghost use Rattle.std.specs.Prelude.{◌≡◌, None, Some, IfOk, Ok};
ghost use Rattle.hx_drill_parts.specs.MirrorNets.{new_net, MirrorBuries};
ghost use Rattle.hx_drill_parts.specs.Mirrors.{server_end, with_loop};

use crate::gate::Turnstile;
use crate::mirror_link::MirrorLink;
use hx_base::{Address, ConnId, Millis, NoMemory, ServerNo, ThreadNo};
use hx_link::{Net, NetFault};
use std::alloc::Global;
use std::marker::Model;

/// Dials servers' ends, and keeps each client's end that is buried. Others are dropped.
#[derive(Drop)]
pub struct MirrorNet<'a, T: Turnstile> {
    alloc: Global,
    gate: &'a T,
    thread: ThreadNo,
    kept: Vec<MirrorLink<'a, T>>,
    /// No memory was found for a client's end.
    lost: bool,
}

impl<'a, T: Turnstile> Model for MirrorNet<'a, T> {
    ghost use Rattle.std.specs.Prelude.{◌-◌, vec_capacity, vec_len};
    ghost use Rattle.hx_drill_parts.specs.MirrorNets.{MirrorNetNow, loop_state};

    ghost Value = { MirrorNetNow T };

    ghost view = { λ m. record {
      state = loop_state m.thread.0;
      kept = m.kept.items;
      room = vec_capacity m.kept - vec_len m.kept;
      lost = m.lost;
      gate = m.gate.now;
    } };
}

impl<'a, T: Turnstile> MirrorNet<'a, T> {
    /// The net of that thread's loop. It has room to keep so many clients' ends.
    ///
    /// # Errors
    /// `NoMemory`.
    pub fn new(
        alloc: Global,
        gate: &'a T,
        thread: ThreadNo,
        room: usize,
    ) -> Result<MirrorNet<'a, T>, NoMemory>
        ensures begins { IfOk result (λ net. net ≡ new_net thread.0 room gate.now) }
    {
        let kept = Vec::with_capacity(alloc, room)?;
        Ok(MirrorNet {
            alloc,
            gate,
            thread,
            kept,
            lost: false,
        })
    }

    /// The gate of its links.
    pub fn gate(&self) -> &'a T
        ensures { result.now ≡ self.now.gate }
    {
        self.gate
    }

    /// The clients' ends that were buried, in order.
    pub fn kept(&self) -> &[MirrorLink<'a, T>]
        ensures kept { result.now ≡ self.now.kept }
    {
        self.kept.as_slice()
    }

    /// Whether a client's end was buried for which no memory was found.
    pub fn has_lost(&self) -> bool
        ensures { result ≡ self.now.lost }
    {
        self.lost
    }
}

impl<'a, T: Turnstile> Net for MirrorNet<'a, T> {
    ghost use Rattle.hx_link.specs.Nets.{NetDials, NetAttaches, NetDetaches, NetBuries, OnlyFaults};
    ghost use Rattle.hx_drill_parts.specs.Mirrors.{MirrorNow};

    type L = MirrorLink<'a, T>;

    ghost state = { λ m. m.state };

    fn loop_no(&self) -> ThreadNo {
        self.thread
    }

    /// It never fails.
    fn dial(
        &mut self,
        server: ServerNo,
        _address: &Address,
        id: ConnId,
        _now: Millis,
    ) -> Result<MirrorLink<'a, T>, NetFault>
        ensures dials { NetDials (λ (m : MirrorNow T). m.state) self.old.state self.new.state server id result }
        ensures link { result ≡ Ok (server_end self.old.gate server id) }
        ensures same { self.new ≡ self.old }
    {
        Ok(MirrorLink::server(self.alloc, self.gate, server, id))
    }

    /// It never fails.
    fn attach(&mut self, link: &mut MirrorLink<'a, T>) -> Result<(), NetFault>
        requires free { link.old.state.on_loop ≡ None }
        ensures attaches { NetAttaches self.old.state self.new.state link.old.state link.new.state
            result }
        ensures link { link.new ≡ with_loop (Some self.old.state.loop_no) link.old }
        ensures same { self.new ≡ self.old }
    {
        link.set_loop(Some(self.thread));
        Ok(())
    }

    fn detach(&mut self, link: &mut MirrorLink<'a, T>)
        ensures detaches { NetDetaches self.old.state self.new.state link.old.state
            link.new.state }
        ensures link { link.new ≡ with_loop None link.old }
        ensures same { self.new ≡ self.old }
    {
        link.set_loop(None);
    }

    fn bury(&mut self, link: MirrorLink<'a, T>)
        ensures buries { NetBuries self.old.state self.new.state link.entry.state }
        ensures keeps { MirrorBuries link.entry.client self.old self.new link.entry }
    {
        if link.session().is_some() && self.kept.push(link).is_err() {
            self.lost = true;
        }
    }

    /// Waits for nothing.
    fn pause(&mut self, _limit: Millis)
        ensures pauses { OnlyFaults self.old.state self.new.state }
        ensures same { self.new ≡ self.old }
    {}
}
