//! Why work of threads fails.
use thiserror::Error;

/// Why a leg wasn't carried, or a session ended early.
#[derive(Clone, Copy, Debug, PartialEq, Eq, Error)]
pub enum WorkerError {
    /// The link to a node broke, now or before.
    #[error("the link to the node is broken")]
    LinkBroken,
    /// What came back is no answer to what was sent.
    #[error("the node answered what wasn't asked")]
    Mismatch,
    /// A request has no answer, or that of another.
    #[error("the book differs from what was done")]
    BookDiffers,
    /// A read failed.
    #[error("a read failed")]
    ReadFault,
    /// A write failed.
    #[error("a write failed")]
    WriteFault,
    /// The reads that were allowed are spent.
    #[error("the turns are spent")]
    TurnsSpent,
    /// Memory was refused.
    #[error("out of memory")]
    OutOfMemory,
    /// A thread couldn't be made.
    #[error("no thread could be made")]
    NoThread,
}

impl WorkerError {
    ghost use Rattle.std.specs.Prelude.{◌≡◌};
    ghost use Rattle.mr_desks.specs.WorkerError.{number_of_refusal};

    /// The refusal's number: 1 to 9, without 3, which is a desk's.
    pub fn number(self) -> u8
        ensures { result ≡ number_of_refusal self }
    {
        match self {
            WorkerError::LinkBroken => 1,
            WorkerError::Mismatch => 2,
            WorkerError::BookDiffers => 4,
            WorkerError::ReadFault => 5,
            WorkerError::WriteFault => 6,
            WorkerError::TurnsSpent => 7,
            WorkerError::OutOfMemory => 8,
            WorkerError::NoThread => 9,
        }
    }
}
