//! Private parts of hx_config: the words, numbers, addresses and names that lines have, lists that grow, and faults.
#![tactic(auto)]

mod addresses;
mod fault;
mod growing;
mod lines;
mod numbers;
mod words;

pub use addresses::{address_to_bind, address_to_connect, is_plain_word, name};
pub use fault::{ConfigFault, Flaw, Refusal, Rule, Stop};
pub use growing::Growing;
pub use lines::{Lines, line_len};
pub use numbers::{MOST, is_number_word, number, time, value_of};
pub use words::{Words, same};
