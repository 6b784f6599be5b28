//! A link and a net over those in memory that tell nothing of bytes.
ghost use Rattle.std.specs.Prelude.{◌≡◌, None, IfOk};
ghost use Rattle.hx_link.specs.Nets.{IsFresh};
ghost use Rattle.hx_link.specs.MemoryNets.{IsPlan};

use hx_base::{Address, Bytes, ConnId, Items, Millis, NoMemory, ServerNo, ThreadNo};
use hx_link::{Got, Link, MemoryLink, MemoryNet, Net, NetFault, Piece, Plan, Put};
use std::alloc::Global;

/// What a link does: its bytes at once, then its end, and the call from which on it fails.
#[derive(Clone, Copy)]
pub struct Script {
    pub bytes: &'static str,
    pub ends: bool,
    pub fail: Option<u64>,
}

/// The plan of a link of server 2 that does that.
pub fn plan(alloc: Global, script: Script) -> Result<Plan, NoMemory>
    ensures { IfOk result IsPlan }
{
    let mut pieces = Vec::new(alloc);
    pieces.push(Piece {
        at: Millis(0),
        after: 0,
        bytes: Bytes::from_vec(script.bytes.as_bytes().to_vec(alloc)?),
    })?;
    Ok(Plan {
        line: 1,
        server: Some(ServerNo(2)),
        refuse: false,
        pieces: Items::from_vec(pieces),
        end: if script.ends {
            Some((Millis(0), 0))
        } else {
            None
        },
        room: None,
        fail: script.fail.map(|k| k.max(1)),
    })
}

#[derive(Drop)]
pub struct Muted {
    link: MemoryLink,
}

impl Muted {
    pub fn new(alloc: Global, script: Script) -> Result<Muted, NoMemory>
        ensures fresh { IfOk result (λ m. IsFresh (record m.link.state { taken = None; sent = None })) }
        ensures dial { IfOk result (λ m. m.link.state.dial ≡ None) }
    {
        let link = MemoryLink::new(plan(alloc, script)?);
        Ok(Muted { link })
    }
}

impl Link for Muted {
    ghost state = { λ m. record m.link.state { taken = None; sent = None } };

    fn read(&mut self, now: Millis, into: &mut [u8]) -> Got {
        match self.link.read(now, into) {
            Got::Bytes(n) => Got::Bytes(n),
            Got::NotYet => Got::NotYet,
            Got::End => Got::End,
            Got::Failed => Got::Failed,
        }
    }

    fn write(&mut self, now: Millis, bytes: &[u8]) -> Put {
        match self.link.write(now, bytes) {
            Put::Bytes(n) => Put::Bytes(n),
            Put::NotYet => Put::NotYet,
            Put::Failed => Put::Failed,
        }
    }

    fn finish(&mut self) {
        self.link.finish();
    }
}

#[derive(Drop)]
pub struct MutedNet {
    net: MemoryNet,
}

impl MutedNet {
    pub fn new(alloc: Global) -> Result<MutedNet, NoMemory> {
        Ok(MutedNet {
            net: MemoryNet::new(alloc, Vec::new(alloc), 1)?,
        })
    }

    /// Lets the next attach fail.
    pub fn refuse_next(&mut self) {
        self.net.fail_attach(1);
    }
}

impl Net for MutedNet {
    type L = Muted;

    ghost state = { λ n. record n.net.state { buried = None } };

    fn loop_no(&self) -> ThreadNo {
        self.net.loop_no()
    }

    fn dial(
        &mut self,
        server: ServerNo,
        address: &Address,
        id: ConnId,
        now: Millis,
    ) -> Result<Muted, NetFault> {
        match self.net.dial(server, address, id, now) {
            Ok(link) => Ok(Muted { link }),
            Err(fault) => Err(fault),
        }
    }

    fn attach(&mut self, link: &mut Muted) -> Result<(), NetFault> {
        match self.net.attach(&mut link.link) {
            Ok(()) => Ok(()),
            Err(fault) => Err(fault),
        }
    }

    fn detach(&mut self, link: &mut Muted) {
        self.net.detach(&mut link.link);
    }

    fn bury(&mut self, link: Muted) {
        self.net.bury(link.link);
    }

    fn pause(&mut self, limit: Millis) {
        self.net.pause(limit);
    }
}
