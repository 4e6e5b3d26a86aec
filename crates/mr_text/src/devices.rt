//! What texts come from and go to: sources and sinks over std's readers and writers, and what contracts count of them.

mod counting;
mod fails_at;
mod sink;
mod source;

pub use counting::{GhostBytes, GhostCount, GhostLeast};
pub use fails_at::FailsAt;
pub use sink::{OverWriter, Sink};
pub use source::{OverReader, Source};
