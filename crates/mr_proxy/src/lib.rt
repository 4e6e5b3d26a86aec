//! The core of one proxy: requests become legs to nodes, and the replies of the legs one answer. Beside it stands what a node
//! is asked for a leg, and what its reply says of the leg.
#![tactic(auto)]

mod answer;
mod asking;
mod error;
mod issued;
mod issuing;
mod join;
pub mod laws;
mod leg;
mod leg_count;
mod legs_draft;
mod lists;
mod outstanding;
mod pending;
mod proxy_core;
mod room;
mod sheet;
mod slot;
mod step;
mod taken;
mod world_error;
mod writing;

pub use answer::Answer;
pub use asking::{are_dealt, leg_reply_of, write_command, write_legs};
pub use error::ProxyError;
pub use issued::Issued;
pub use issuing::issue_copy;
pub use leg::Leg;
pub use leg_count::legs_of;
pub use proxy_core::ProxyCore;
pub use sheet::{LegBack, LegId, LegSheet};
pub use slot::{Slot, is_of_kind};
pub use step::Step;
pub use taken::Taken;
pub use world_error::WorldError;
