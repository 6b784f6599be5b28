//! How a lane is made.
ghost use Rattle.std.specs.Prelude.{◌≡◌, ◌≤◌, false, IfOk};
ghost use Rattle.hx_handoff.specs.LaneViews.{lane_capacity};

use crate::lanes::Lane;
use crate::rule::Queue;
use hx_base::NoMemory;
use std::alloc::Global;

/// A lane that holds at most so many items.
///
/// # Errors
/// `NoMemory` for want of memory.
pub fn lane<T>(alloc: Global, capacity: usize) -> Result<Lane<T>, NoMemory>
    requires { 1 ≤ capacity }
    ensures capacity { IfOk result (λ l. lane_capacity l ≡ capacity) }
    ensures unused { IfOk result (λ l. l.given ≡ false) }
{
    let (queue, pass) = Queue::<T>::ruled(alloc, capacity)?;
    Ok(Lane {
        queue,
        pass,
        given: false,
    })
}
