//! The lanes of a run.

use crate::guest::Carried;
use hx_base::NoMemory;
use hx_handoff::{Giver, Lane, Taker, lane};
use hx_link::Link;
use std::alloc::Global;

/// How many errands a lane holds.
const LANE: usize = 1_024;

/// The ends of all lanes.
#[derive(Drop)]
pub struct Ends<'a, L: Link> {
    /// For the door, by worker.
    pub door: Vec<Giver<'a, Carried<L>>>,
    /// For the orders, by worker. The first one alone is used.
    pub orders: Vec<Giver<'a, Carried<L>>>,
    /// By worker.
    pub workers: Vec<Taker<'a, Carried<L>>>,
}

/// A lane for each worker.
pub fn lanes_of<L: Link>(alloc: Global, threads: u8) -> Result<Vec<Lane<Carried<L>>>, NoMemory> {
    let mut lanes = Vec::new(alloc);
    for _ in 0..threads {
        lanes.push(lane(alloc, LANE)?)?;
    }
    Ok(lanes)
}

/// Adds the ends of a lane. It gives them once, and is new.
fn part<'a, L: Link>(
    lane: &'a mut Lane<Carried<L>>,
    ends: &mut Ends<'a, L>,
) -> Result<(), NoMemory> {
    let given = lane.given;
    if given {
        return Err(NoMemory);
    }
    let (first, second, taker) = lane.ends();
    ends.door.push(first)?;
    ends.orders.push(second)?;
    ends.workers.push(taker)?;
    Ok(())
}

/// Parts the ends of the lanes.
pub fn ends_of<'a, L: Link>(
    alloc: Global,
    lanes: &'a mut [Lane<Carried<L>>],
) -> Result<Ends<'a, L>, NoMemory> {
    let mut ends = Ends {
        door: Vec::new(alloc),
        orders: Vec::new(alloc),
        workers: Vec::new(alloc),
    };
    for lane in lanes.iter_mut() {
        part(lane, &mut ends)?;
    }
    Ok(ends)
}
