//! What nodes answer to the legs of a request, and how the answers of both sides become one.
#![tactic(auto)]

mod badness;
mod joined;
mod joining;
pub mod laws;
mod leg_reply;

pub use badness::worse;
pub use joined::Joined;
pub use joining::{Joining, One, Two};
pub use leg_reply::LegReply;
