//! Proxies and nodes that many threads share: legs and how they are carried, books of what a proxy did, and sessions.
#![tactic(auto)]

mod awaiting;
mod book;
mod carried;
mod carrier;
mod carriers;
mod close_error;
mod closing;
mod desk;
mod desk_error;
mod direct_carriers;
mod error;
mod gate;
mod ghost_legs;
mod local_carrier;
mod recorded_proxy;
mod recorded_state;
mod replaying;
mod share;
mod shared_node;
mod shared_proxy;
mod shared_state;

pub use book::Book;
pub use carried::Carried;
pub use carrier::Carrier;
pub use carriers::Carriers;
pub use close_error::CloseError;
pub use closing::close;
pub use desk::Desk;
pub use desk_error::DeskError;
pub use direct_carriers::DirectCarriers;
pub use error::WorkerError;
pub use gate::{Gate, OpenGate};
pub use ghost_legs::GhostLegs;
pub use local_carrier::LocalCarrier;
pub use mr_proxy::Step;
pub use recorded_proxy::RecordedProxy;
pub use recorded_state::RecordedState;
pub use share::Share;
pub use shared_node::{NodeDesk, SharedNode};
pub use shared_proxy::SharedProxy;
pub use shared_state::SharedState;
