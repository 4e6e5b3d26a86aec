//! Nodes and proxies on sockets: carriers that connect to their nodes, sockets that listen, and the service of a listener's
//! connections, one thread each.
#![tactic(auto)]

mod address;
mod addresses;
mod bounds;
mod carriers;
mod connections;
mod dialling;
pub mod laws;
mod listener;
mod listening;
mod node_service;
mod patience;
mod patient_writer;
mod proxy_service;
mod runs;
mod seeded_node;
mod socket_carrier;
mod tally;

pub use address::{address_of, node_address, node_addresses};
pub use addresses::GhostAddresses;
pub use bounds::ServiceBounds;
pub use carriers::node_carriers;
pub use listener::{AcceptFault, Listener, OverListener};
pub use listening::{Listens, open};
pub use node_service::{run_node, serve_node};
pub use patience::{Patience, leg_wait};
pub use proxy_service::{run_proxy, serve_proxy};
pub use runs::GhostRuns;
pub use seeded_node::SeededNode;
pub use socket_carrier::SocketCarrier;
