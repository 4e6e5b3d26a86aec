//! The theorem over bytes: what holds of proxies and nodes that are loops, whatever becomes of the bytes on their way between them.
#![tactic(auto)]

pub mod laws;
pub mod ties;
