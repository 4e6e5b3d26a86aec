//! What the tests of threads are made of: proxies, caches of both pools, and carriers to these. Old pools are 7001 and 7002, new
//! ones begin at 7101, the hash is the sum of a key's bytes, and the migration starts at 1000 with an interval of 100 seconds.
//! All of it fails for want of memory alone. Nothing here asserts.
#![tactic(auto)]

mod nodes;
mod proxies;

pub use nodes::{Nodes, ToNode, carriers_to, carriers_to_all, make_nodes};
pub use proxies::{core_of, core_with_room, or_no_memory, recorded_proxy};
