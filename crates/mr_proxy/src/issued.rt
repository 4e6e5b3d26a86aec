//! What an accepted request becomes.
use crate::leg::Leg;
use mr_history::OpId;

/// What an accepted request becomes.
#[derive(Debug, Drop)]
pub struct Issued {
    /// The request's name.
    pub op: OpId,
    /// Its legs, in order of place.
    pub legs: Vec<Leg>,
}
