//! Why a node refuses, or its service ends early.
ghost use Rattle.std.specs.Prelude.{◌≡◌};

use crate::session::SessionFault;
use std::alloc::AllocError;
use thiserror::Error;

/// Why a cache couldn't be made, or the service of requests over it ended early.
#[derive(Clone, Copy, Debug, PartialEq, Eq, Error)]
pub enum NodeError {
    /// A cache was to hold no item.
    #[error("a cache needs a capacity of at least one item")]
    ZeroCapacity,
    /// Memory was refused.
    #[error("out of memory")]
    OutOfMemory,
    /// The source of requests failed.
    #[error("reading requests failed")]
    ReadFault,
    /// The sink of answers failed.
    #[error("writing an answer failed")]
    WriteFault,
    /// All the reads that were allowed were made.
    #[error("all allowed reads were made")]
    TurnsSpent,
}

impl NodeError {
    ghost use Rattle.mr_node.specs.NodeError.{number_of_refusal};

    /// The refusal's number.
    pub fn number(self) -> u8
        ensures { result ≡ number_of_refusal self }
    {
        match self {
            NodeError::ZeroCapacity => 1,
            NodeError::OutOfMemory => 2,
            NodeError::ReadFault => 3,
            NodeError::WriteFault => 4,
            NodeError::TurnsSpent => 5,
        }
    }
}

impl From<AllocError> for NodeError {
    ghost use Rattle.std.specs.Prelude.{◌≡◌};
    ghost use Rattle.mr_node.specs.declared.error.NodeError.TheVariants.{OutOfMemory};

    ghost from_gives = { λ _ e. e ≡ OutOfMemory };

    fn from(_e: AllocError) -> NodeError {
        NodeError::OutOfMemory
    }
}

impl From<SessionFault> for NodeError {
    ghost use Rattle.std.specs.Prelude.{◌≡◌};
    ghost use Rattle.mr_node.specs.Service.{node_error_of};

    ghost from_gives = { λ fault e. e ≡ node_error_of fault };

    fn from(fault: SessionFault) -> NodeError {
        match fault {
            SessionFault::ReadFault => NodeError::ReadFault,
            SessionFault::WriteFault => NodeError::WriteFault,
            SessionFault::TurnsSpent => NodeError::TurnsSpent,
            SessionFault::OutOfMemory => NodeError::OutOfMemory,
        }
    }
}
