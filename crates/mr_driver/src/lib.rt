//! Machines over sockets, a loop each: what a `ProxyLoop` or a `NodeLoop` decides is read, written, dialled and timed here, and nothing
//! is decided. Each loop has a thread, a poll and its clients, and that of a proxy one link to each node of its own; one thread more
//! accepts, and hands each socket to the loop with the fewest clients. Any thread may ask the loops what they did. A machine of links
//! alone has a loop without clients, which its caller's own thread drives.
#![tactic(auto)]

mod accepting;
mod clients;
mod clocks;
mod doors;
mod engine;
mod flow;
mod hearing;
mod link;
mod link_side;
mod linked;
mod links;
mod loads;
mod machine;
mod pace;
mod reading;
mod reports;
mod seat;
mod serving;
mod shared_cache;
mod solo;
mod stages;
mod tickets;
mod times;
mod tokens;
mod turns;
mod waits;
mod writing;

pub use accepting::listen_at;
pub use doors::Doors;
pub use hearing::{Deaf, Hears, LinkTrouble, LoopEvent};
pub use linked::Linked;
pub use loads::least_loaded;
pub use machine::Machine;
pub use reports::{LinkReport, LoopReport};
pub use serving::{DriverBounds, Loops, open_loops, open_node_loops, serve};
pub use shared_cache::{CacheDesk, CacheLook, SharedCache};
pub use solo::Solo;
pub use times::{bound_of, next_pause, tick_of};
