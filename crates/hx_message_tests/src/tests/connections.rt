//! The life of a connection over a link in memory that tells nothing of its bytes, so that any bytes may stand for
//! messages.
ghost use Rattle.std.specs.Prelude.{◌≡◌, ◌<◌, None, false, length, IfOk};

mod doubles;

use crate::tests::connections::doubles::{Muted, MutedNet, Script};
use hx_base::{Address, ConnId, Face, Faced, Host, Millis, ServerNo};
use hx_conn::*;
use hx_link::{Got, MemoryNet, Net, Pipe, Put};
use std::alloc::Global;
use std::process::Abort;
use std::test::Fail;

const NOW: Millis = Millis(0);

const SILENT: Script = Script {
    bytes: "",
    ends: false,
    fail: None,
};

fn rested(alloc: Global, script: Script) -> Result<Rested<Muted>, Fail>
    ensures sent { IfOk result (λ r. r.link.sent ≡ None) }
    ensures taken { IfOk result (λ r. r.link.taken ≡ None) }
{
    let link = Muted::new(alloc, script)?;
    Ok(Rested::first(link, ConnId(7), ServerNo(2)))
}

fn busy(rested: Rested<Muted>, net: &mut MutedNet) -> Result<Busy<Muted>, Fail>
    requires sent { rested.link.sent ≡ None }
    requires taken { rested.link.taken ≡ None }
    ensures sent { IfOk result (λ b. b.link.sent ≡ None) }
    ensures taken { IfOk result (λ b. b.link.taken ≡ None) }
    ensures open { IfOk result (λ b. b.exchange.asked ≡ false) }
{
    Ok(rested.begin(net, MethodKind::Other).ok().ok_or("no loop")?)
}

/// Ends the answer where so many bytes were taken.
fn end_answer(busy: &mut Busy<Muted>, len: u64, persistent: bool)
    requires { busy.old.link.taken ≡ None }
    ensures { busy.new.link ≡ busy.old.link }
{
    let taken = busy.taken();
    if len <= taken.to - taken.from {
        busy.answer_ends(len, persistent);
    }
}

/// Dials over any net.
fn dial<N: Net>(net: &mut N, id: ConnId) -> Option<Rested<N::L>> {
    let address = Address {
        host: Host::Any,
        port: 1,
    };
    match net.dial(ServerNo(2), &address, id, NOW) {
        Ok(link) => Some(Rested::first(link, id, ServerNo(2))),
        Err(_) => None,
    }
}

#[test]
fn a_net_in_memory_dials_what_may_rest(rt: HostRuntime) -> Result<(), Fail> {
    let alloc = rt.alloc();
    let plans = Vec::from_array(alloc, [doubles::plan(alloc, SILENT)?])?;
    let mut net = MemoryNet::new(alloc, plans, 1)?;
    let idle = dial(&mut net, ConnId(1)).ok_or("no plan")?;
    let carrying = idle
        .begin(&mut net, MethodKind::Other)
        .ok()
        .ok_or("no loop")?;
    assert_eq!(rt;
        (carrying.nth(), carrying.id(), carrying.server()),
        (1, ConnId(1), ServerNo(2))
    );
    let link = carrying.end(&mut net);
    net.bury(link);
    assert!(rt; dial(&mut net, ConnId(2)).is_none());
    assert_eq!(rt; net.into_buried().len(), 1);
    Ok(())
}

#[test]
fn a_connection_rests_up_to_65535_uses(rt: HostRuntime) -> Result<(), Fail> {
    let mut net = MutedNet::new(rt.alloc())?;
    let mut idle = rested(rt.alloc(), SILENT)?;
    for _ in 0..65_535 {
        let mut carrying = busy(idle, &mut net)?;
        carrying.ask_ends();
        end_answer(&mut carrying, 0, true);
        idle = carrying.rest(&mut net).ok().ok_or("refused")?;
    }
    assert_eq!(rt; idle.uses(), 65_535);
    assert_eq!(rt;
        idle.face(),
        Face {
            id: ConnId(7),
            uses: 65_535
        }
    );
    let mut carrying = busy(idle, &mut net)?;
    assert_eq!(rt; carrying.nth(), 65_536);
    carrying.ask_ends();
    end_answer(&mut carrying, 0, true);
    assert_eq!(rt;
        carrying.rest(&mut net).err().map(|refused| refused.why),
        Some(5)
    );
    Ok(())
}

/// Writes and reads once each.
fn carry(rt: &impl Abort, busy: &mut Busy<Muted>, into: &mut Pipe) -> Got
    requires sent { busy.old.link.sent ≡ None }
    requires taken { busy.old.link.taken ≡ None }
    requires open { busy.old.exchange.asked ≡ false }
    requires room { length into.old.bytes < into.old.capacity }
    ensures sent { busy.new.link.sent ≡ None }
    ensures taken { busy.new.link.taken ≡ None }
    ensures open { busy.new.exchange.asked ≡ false }
{
    assert_eq!(rt; busy.write_ask(NOW, b"ask"), Put::Bytes(3));
    busy.read_answer(NOW, into)
}

/// Why it may not rest, and the connection as it was.
fn refused(busy: Busy<Muted>, net: &mut MutedNet, why: u8) -> Result<Busy<Muted>, Fail>
    ensures { IfOk result (λ b. b ≡ busy) }
{
    match busy.rest(net) {
        Err(refused) if refused.why == why => Ok(refused.busy),
        _ => Err("another cause")?,
    }
}

#[test]
fn each_cause_is_met_in_its_order(rt: HostRuntime) -> Result<(), Fail> {
    let alloc = rt.alloc();
    let mut net = MutedNet::new(alloc)?;
    let mut pipe = Pipe::new(alloc, 8)?;
    let script = Script {
        bytes: "answer",
        ends: false,
        fail: None,
    };
    let mut carrying = busy(rested(alloc, script)?, &mut net)?;
    assert_eq!(rt; carry(&rt, &mut carrying, &mut pipe), Got::Bytes(6));
    assert_eq!(rt; (carrying.sent().to, carrying.taken().to), (3, 6));
    let mut carrying = refused(carrying, &mut net, 1)?;
    carrying.ask_ends();
    let mut carrying = refused(carrying, &mut net, 2)?;
    end_answer(&mut carrying, 5, false);
    let mut carrying = refused(carrying, &mut net, 3)?;
    end_answer(&mut carrying, 5, true);
    let mut carrying = refused(carrying, &mut net, 3)?;
    end_answer(&mut carrying, 6, false);
    let mut carrying = refused(carrying, &mut net, 4)?;
    end_answer(&mut carrying, 6, true);
    let idle = carrying.rest(&mut net).ok().ok_or("refused")?;
    assert_eq!(rt; (idle.uses(), idle.server()), (1, ServerNo(2)));
    Ok(())
}

#[test]
fn an_open_request_is_a_cause_alone(rt: HostRuntime) -> Result<(), Fail> {
    let alloc = rt.alloc();
    let mut net = MutedNet::new(alloc)?;
    let mut pipe = Pipe::new(alloc, 8)?;
    let script = Script {
        bytes: "answer",
        ends: false,
        fail: None,
    };
    let mut carrying = busy(rested(alloc, script)?, &mut net)?;
    assert_eq!(rt; carry(&rt, &mut carrying, &mut pipe), Got::Bytes(6));
    end_answer(&mut carrying, 6, true);
    let mut carrying = refused(carrying, &mut net, 1)?;
    carrying.ask_ends();
    let idle = carrying.rest(&mut net).ok().ok_or("refused")?;
    assert_eq!(rt; idle.uses(), 1);
    Ok(())
}

#[test]
fn a_fault_after_a_whole_answer_is_remembered(rt: HostRuntime) -> Result<(), Fail> {
    let alloc = rt.alloc();
    let mut net = MutedNet::new(alloc)?;
    let mut pipe = Pipe::new(alloc, 8)?;
    let script = Script {
        bytes: "answer",
        ends: false,
        fail: Some(3),
    };
    let mut carrying = busy(rested(alloc, script)?, &mut net)?;
    assert_eq!(rt; carry(&rt, &mut carrying, &mut pipe), Got::Bytes(6));
    assert!(rt; pipe.room() > 0);
    assert_eq!(rt; carrying.read_answer(NOW, &mut pipe), Got::Failed);
    carrying.ask_ends();
    end_answer(&mut carrying, 6, true);
    let carrying = refused(carrying, &mut net, 6)?;
    let link = carrying.end(&mut net);
    net.bury(link);
    Ok(())
}

#[test]
fn a_probe_tells_an_end_a_byte_and_a_fault(rt: HostRuntime) -> Result<(), Fail> {
    let rows = [
        (SILENT, None),
        (
            Script {
                ends: true,
                ..SILENT
            },
            Some(1),
        ),
        (
            Script {
                bytes: "x",
                ..SILENT
            },
            Some(2),
        ),
        (
            Script {
                fail: Some(1),
                ..SILENT
            },
            Some(3),
        ),
    ];
    for (script, why) in rows {
        let probed = rested(rt.alloc(), script)?.probe(NOW);
        assert_eq!(rt; probed.err().map(|dead| dead.why), why);
    }
    Ok(())
}

#[test]
fn a_refused_attach_hands_back_the_link(rt: HostRuntime) -> Result<(), Fail> {
    let mut net = MutedNet::new(rt.alloc())?;
    net.refuse_next();
    match rested(rt.alloc(), SILENT)?.begin(&mut net, MethodKind::Head) {
        Ok(_) => assert!(rt; false, "it is attached"),
        Err(dead) => assert_eq!(rt; (dead.id, dead.why), (ConnId(7), 4)),
    }
    net.bury(rested(rt.alloc(), SILENT)?.end());
    Ok(())
}
