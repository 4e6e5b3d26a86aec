//! What a watcher sees of a fleet while it migrates: what services tell of themselves, the premises that it judges by that, and
//! how it is shown. Nothing here reads or writes: values come in, values go out.
#![tactic(auto)]

mod changes;
mod finding;
mod json;
mod judging;
pub mod laws;
mod lines;
mod look;
mod next;
mod nodes;
mod premise_lines;
mod premises;
mod proxies;
mod rate;
mod reading;
mod shown;
mod spread;
mod stats;
mod text;
mod told;
mod view;

pub use changes::change_lines;
pub use finding::{Finding, Findings};
pub use json::look_json;
pub use judging::{all_in_last_phase, findings_after};
pub use look::{Look, NodeSeen, ProxySeen};
pub use next::{Next, next_of};
pub use premises::{empty_after, forward_after, same_after};
pub use reading::read_told;
pub use spread::{Spread, near_after, spread_of};
pub use stats::{StatsTold, read_stats};
pub use text::look_text;
pub use told::{NodeTold, Place, ProxyTold, Told, Traffic};
pub use view::View;
