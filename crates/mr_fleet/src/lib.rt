//! Fleets of proxies under threads: a thread for each client, and one for each carrier of a proxy, which owns the connection
//! to a node.
//!
//! A client's session sends its legs by `LinkCarriers`: each goes as a `LinkJob` over the one of its `Links` that leads to the
//! leg's node. At the other end of that link `run_worker` carries what comes, and sends it back. A `FleetClient` wasn't served
//! yet; once it was, or got no thread, it is a `FinishedClient`, whose type keeps what is said of its session. `run_fleet` makes
//! room for all that a fleet comes to, starts the threads of each `FleetProxy`, waits for them, and closes each proxy's book:
//! that gives a `FleetEnd` for each proxy, with a `ClientEnd` for each client.
#![tactic(auto)]

mod client_end;
mod ending;
mod finished_client;
mod fleet_client;
mod fleet_end;
mod fleet_proxy;
mod link_carriers;
mod link_job;
mod link_worker;
mod links;
mod room;
mod run;
mod threads;

pub use client_end::ClientEnd;
pub use fleet_client::FleetClient;
pub use fleet_end::FleetEnd;
pub use fleet_proxy::FleetProxy;
pub use link_carriers::LinkCarriers;
pub use run::run_fleet;
