//! Clocks: readings in whole seconds since the epoch.
#![tactic(auto)]

mod clock;
mod error;
mod fixed_clock;
pub mod laws;
mod list_clock;
mod readings;
mod system_clock;

pub use clock::Clock;
pub use error::{ClockError, ClockFault};
pub use fixed_clock::FixedClock;
pub use list_clock::ListClock;
pub use readings::Readings;
pub use system_clock::SystemClock;
