//! One memory cache: what it keeps, in order of use, and the service of requests over it.
#![tactic(auto)]

mod cache_node;
mod cached_item;
mod command;
mod ended;
mod error;
mod expiry;
mod key_hashing;
pub mod laws;
mod outcome;
mod perform;
mod service;
pub mod session;

pub use cache_node::CacheNode;
pub use cached_item::CachedItem;
pub use command::NodeCommand;
pub use ended::Ended;
pub use error::NodeError;
pub use expiry::MAX_RELATIVE_EXPTIME;
pub use outcome::answer_on;
pub use perform::Perform;
pub use service::serve;
