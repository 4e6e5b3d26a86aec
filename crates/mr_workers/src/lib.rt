//! Proxies and nodes that many threads share, by one name: desks and books, sessions of clients and links to nodes, and whole
//! fleets.
#![tactic(auto)]

pub use mr_desks::{
    Book, Carried, Carrier, Carriers, CloseError, Desk, DeskError, DirectCarriers, Gate,
    LocalCarrier, NodeDesk, OpenGate, RecordedProxy, RecordedState, Share, SharedNode, SharedProxy,
    SharedState, Step, WorkerError, close,
};
pub use mr_fleet::{ClientEnd, FleetClient, FleetEnd, FleetProxy, LinkCarriers, run_fleet};
pub use mr_sessions::{NodeLink, Served, serve_client};
