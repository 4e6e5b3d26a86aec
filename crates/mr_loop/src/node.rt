//! A cache node as a machine that an event loop drives: one cache, and the clients of a loop. It owns no socket, takes no lock
//! and reads no clock; what it is told of bytes and time decides all that it does.

mod cache;
mod client;
mod counting_cache;
mod counts;
mod no_reading;
mod node_loop;
mod serving;

pub use cache::Cache;
pub use client::NodeClient;
pub use counting_cache::CountingCache;
pub use counts::ServedCounts;
pub use node_loop::NodeLoop;
pub use serving::NodePause;
