//! The two sides of a proxy that many threads share: one client's session, and the links that carry its legs to nodes over
//! streams.
#![tactic(auto)]

mod carrying;
mod destinations;
mod exchange;
mod faults;
mod node_link;
mod reading;
mod served;
mod serving;
mod session_log;

pub use node_link::NodeLink;
pub use served::Served;
pub use serving::serve_client;
