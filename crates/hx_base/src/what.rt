//! What a connection's link tells of itself. No value of these types is made: contracts alone speak of them.

use crate::plan::Plan;
use std::collections::LinkedList;

/// The link's count of faults, its tag where it has one, its bytes where it tells them, and its plan.
pub struct What {
    pub faults: u64,
    pub tag: Option<u64>,
    pub told: Option<LinkTold>,
    /// The plan that it follows, where it tells one.
    pub plan: Option<Plan>,
}

/// The bytes that a link sent and took, and whether it told its end.
pub struct LinkTold {
    pub sent: LinkedList<u8>,
    pub taken: LinkedList<u8>,
    pub ended: bool,
}
