//! What the clients of a canary know, in notes of one order, and the judge of it: which hits show what an acknowledged delete
//! should have taken away.
#![tactic(auto)]

mod error;
mod judge;
pub mod laws;
mod note;
mod past;
mod waiting;
mod watched;

pub use error::CanaryError;
pub use judge::Judge;
pub use note::{Answer, Asked, Conviction, Note, Probe};
