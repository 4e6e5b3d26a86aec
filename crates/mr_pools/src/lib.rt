//! Where keys are kept: named nodes, the pools that they form, the hashes that place a key in a pool, and the
//! routing of migrations from one pool to the next.
#![tactic(auto)]

mod error;
mod hash;
pub mod laws;
mod limits;
mod name;
mod pool;
mod pools;
mod routing;

pub use error::PoolError;
pub use hash::{Fnv1a32, KeyHash, NamedHash, SumHash};
pub use limits::{MAX_NAME, MAX_NODES, MAX_POOLS};
pub use name::NodeName;
pub use pool::Pool;
pub use routing::Routing;
