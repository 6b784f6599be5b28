//! What the seats of a board share: the values that rest in its rows, as one list, the searches
//! through them, and the entries that each call makes of what it finds. It has no board of its own.
#![tactic(auto)]

mod budget;
mod choice;
mod marks;
mod parking;
mod roles;
mod row;
mod take;
mod values;
mod writing;

pub use budget::{most_opens, quota_after, quota_at};
pub use choice::{allows_some, fits, has_room, keeps_any};
pub use marks::{NO_MARKS, NO_TOTALS, one_mark, with_counted};
pub use parking::{admit, refused_by_rules};
pub use roles::{Role, View};
pub use row::{ROW, Wanted, best, found_at, look_for_vacant, look_for_wanted, place_at};
pub use take::{Taker, sweep, take_best, take_entry};
pub use values::{Rest, Rows};
pub use writing::Desk;
