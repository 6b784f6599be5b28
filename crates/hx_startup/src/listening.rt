//! The addresses at which the program listens.
ghost use Rattle.std.specs.Prelude.{◌≡◌, ◌≤◌, OnOk, OnErr, length};
ghost use Rattle.hx_startup.specs.Listens.{Listens, FailsToListen, binds_at, binds_of};

use hx_base::Address;
use hx_config::Front;
use hx_doors::Door;
use hx_link::NetFault;

/// Begins to listen at each address of one front.
fn listen_front<D: Door>(door: &mut D, front: u16, binds: &[Address]) -> Result<(), NetFault>
    ensures listens { OnOk result (Listens (D.state door.old) (D.state door.new) (binds_at front binds.now)) }
    ensures fails { OnErr result (FailsToListen (D.state door.old) (D.state door.new)) }
{
    for address in binds {
        door.listen(front, address)?;
    }
    Ok(())
}

/// Begins to listen at each address of each front, in order.
///
/// # Errors
/// `NetFault` at the first where the door fails.
pub fn listen_all<D: Door>(door: &mut D, fronts: &[Front]) -> Result<(), NetFault>
    requires few { length fronts.now ≤ 16 }
    ensures listens { OnOk result (Listens (D.state door.old) (D.state door.new) (binds_of 0 fronts.now)) }
    ensures fails { OnErr result (FailsToListen (D.state door.old) (D.state door.new)) }
{
    for (i, front) in fronts.iter().enumerate() {
        listen_front(door, i as u16, front.binds.as_slice())?;
    }
    Ok(())
}
