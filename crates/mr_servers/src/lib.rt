//! The services of the program on this machine, from the first moment to the last connection, with metrics that they tell or
//! without; and what a watch asks of the machine.
#![tactic(auto)]

mod asking;
mod driven_node;
mod driven_proxy;
mod drives;
mod driving;
mod fault;
mod hearing;
mod host_servers;
mod listening;
mod moments;
mod node_reports;
mod node_teller;
mod proxy_teller;
mod reports;
mod saying;
mod scrapes;
mod screen;
mod seeds;
mod solo;
mod until;

pub use driven_node::NodeLoops;
pub use fault::{OpenFault, SeedFault};
pub use host_servers::{HostServers, Telling};
pub use screen::Screen;
