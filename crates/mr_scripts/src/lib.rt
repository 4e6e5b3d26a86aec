//! Scripts of a fleet's events, which engineers hand over as JSON, read in one fixed order of checks.
#![tactic(auto)]

mod blocks;
mod events;
mod held;
mod homes;
pub mod laws;
mod limits;
mod members;
mod node_names;
mod numbers;
mod proxies;
mod requests;
mod script;
mod setups;
mod texts;
mod upgrade;
mod values;

pub use limits::{MAX_EVENTS, MAX_HELD, MAX_PROXIES, MAX_SCRIPT};
pub use script::{Script, read_events, read_parts};
pub use upgrade::upgrade_script;
pub use values::is_same;
