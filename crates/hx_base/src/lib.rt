//! The numbers and small types that all crates share.
#![tactic(auto)]

mod address;
mod faced;
mod items;
mod numbers;
mod order;
mod place_word;
mod plan;
mod rules;
mod totals;
mod what;

pub use address::{Address, Host};
pub use faced::Faced;
pub use items::{Bytes, Items, Name};
pub use numbers::{
    ConnId, Face, Millis, NoMemory, OutOfIds, PlaceNo, ServerNo, SessionNo, Span, ThreadNo,
};
pub use order::Order;
pub use place_word::{PlaceState, pack_place, unpack_place};
pub use plan::{Piece, Plan};
pub use rules::{Mode, PoolRules};
pub use totals::Totals;
pub use what::{LinkTold, What};
