//! How a client's session went.
use mr_desks::{Share, WorkerError};
use mr_node::Ended;
use mr_proxy::Answer;

/// How a client's session went.
#[derive(Debug, Drop)]
pub struct Served {
    /// How it ended, or why it ended early.
    pub ended: Result<Ended, WorkerError>,
    /// How many requests it issued.
    pub share: Share,
    /// The answers that it took, in order, given up and unwritten ones included, where the proxy keeps a book to hold them
    /// against; else none.
    pub answers: Vec<Answer>,
}
