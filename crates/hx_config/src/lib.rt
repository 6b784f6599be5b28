//! The configuration: a text in the form of a HAProxy 2.4 file, what it says, and its first fault.
#![tactic(auto)]

mod config;
mod finish;
mod keywords;
mod laws;
mod opening;
mod options;
mod parts;
mod places;
mod read;
mod reading;
mod sections;
mod statements;

pub use config::Config;
pub use hx_base::{Address, Host};
pub use hx_config_parts::ConfigFault;
pub use laws::samples;
pub use parts::{Back, Front, Server};
pub use read::read_config;
