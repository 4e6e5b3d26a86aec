//! A fleet of proxies with its nodes and its network, played event by event.
#![tactic(auto)]

mod event;
pub mod headline;
pub mod laws;
mod message;
mod network;
mod node;
mod nodes;
mod note;
mod numbers;
mod premises;
mod setup;
mod terms;
mod world;

pub use event::Event;
pub use message::{Delivery, Message};
pub use mr_proxy::WorldError;
pub use note::Note;
pub use premises::Premises;
pub use setup::{HeldItem, ProxySetup, Setup};
pub use world::World;
