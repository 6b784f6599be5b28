//! Doors and cabinets in memory.
ghost use Rattle.std.specs.Prelude.{IfOk};
ghost use Rattle.hx_doors.specs.Doors.{IsClient};
ghost use Rattle.hx_doors.specs.MemoryCabinets.{IsUnread};

use hx_base::{Address, Bytes, Host, Items, Millis, Name, Plan};
use hx_doors::{Accepted, Cabinet, Door, MemoryCabinet, MemoryDoor, NoFile};
use hx_link::{Got, MemoryLink, MemorySource, Source};
use std::alloc::Global;
use std::test::Fail;

/// A client of the script line.
fn client(alloc: Global, line: u32) -> MemoryLink
    ensures { IsClient result.state }
{
    MemoryLink::new(Plan {
        line,
        server: None,
        refuse: false,
        pieces: Items::from_vec(Vec::new(alloc)),
        end: None,
        room: None,
        fail: None,
    })
}

#[test]
fn a_door_in_memory_gives_each_client_once_in_order(rt: HostRuntime) -> Result<(), Fail> {
    let alloc = rt.alloc();
    let mut door = MemoryDoor::new(vec![in alloc; (3, client(alloc, 8)), (5, client(alloc, 9))]?);
    let here = Address {
        host: Host::Any,
        port: 8080,
    };
    assert!(rt; door.listen(3, &here).is_ok() && door.listen(5, &here).is_ok());
    for want in [(3, 8), (5, 9)] {
        match door.accept(Millis(0)) {
            Accepted::Client(front, link) => assert_eq!(rt; (front, link.tag()), want),
            Accepted::NotYet | Accepted::Failed => assert!(rt; false, "no client {want:?}"),
        }
    }
    for _ in 0..2 {
        assert!(rt; matches!(door.accept(Millis(0)), Accepted::NotYet));
    }
    Ok(())
}

/// A file of which no byte was read.
fn file(alloc: Global, name: &str, bytes: &[u8], fails: u64) -> Result<(Name, MemorySource), Fail>
    ensures { IfOk result (λ f. IsUnread f.1) }
{
    let name = Name::from_vec(Vec::from_slice(alloc, name.as_bytes())?);
    let bytes = Vec::from_slice(alloc, bytes)?;
    let source = MemorySource::new(bytes, vec![in alloc; fails]?);
    Ok((name, source))
}

#[test]
fn a_cabinet_in_memory_hands_each_file_out_once(rt: HostRuntime) -> Result<(), Fail> {
    let alloc = rt.alloc();
    let files = vec![in alloc;
        file(alloc, "a", b"first", 9)?,
        file(alloc, "b", b"other", 1)?,
        file(alloc, "a", b"second", 9)?,
    ]?;
    let mut cabinet = MemoryCabinet::new(files);
    let mut into = [0; 8];
    for want in ["first", "second"] {
        let mut source = cabinet.fetch("a")?;
        assert_eq!(rt; source.read(&mut into), Got::Bytes(want.len()));
        assert!(rt; into.starts_with(want.as_bytes()), "{want}");
        assert_eq!(rt; source.read(&mut into), Got::End);
        cabinet.give_back(source);
    }
    assert!(rt; matches!(cabinet.fetch("a"), Err(NoFile)), "both are out");
    let mut source = cabinet.fetch("b")?;
    assert_eq!(rt; source.read(&mut into), Got::Failed, "its first call fails");
    cabinet.give_back(source);
    assert!(rt; matches!(cabinet.fetch("b"), Err(NoFile)));
    Ok(())
}
