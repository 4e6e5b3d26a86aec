//! The flight of a canary: clients of its own at proxies, driven by one thread, and what is written of what they see.
#![tactic(auto)]

mod fault;
mod flight;
mod flock;
mod log;
mod plans;
mod scene;
mod seeing;
mod showing;

pub use fault::FlightFault;
pub use flight::fly;
pub use flock::Flock;
pub use scene::Scene;
pub use showing::{Manner, Sight, ending_text, manner_of, sight_text};
