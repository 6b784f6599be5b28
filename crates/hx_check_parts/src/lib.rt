//! The rules by which a transcript is judged, over the parts of it that they speak of.
#![tactic(auto)]

mod exchanges;
mod last;
mod lasts;
mod legal;
mod limit;
mod links;
mod mode;
mod numbers;
mod ranges;
mod records;
mod samples;
mod sessions;
mod sums;
mod tiles;

pub use exchanges::{sent_holds, took_holds};
pub use legal::{first_illegal, first_illegal_by_tables};
pub use limit::first_past_limit;
pub use links::{Clients, Conns};
pub use mode::first_against_mode;
pub use records::Records;
pub use sums::sums_of;
pub use tiles::{first_loose_left, first_without_left};
