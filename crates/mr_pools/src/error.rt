//! Why a name, a pool or a routing is refused.
ghost use Rattle.std.specs.Prelude.{◌≡◌};

use std::alloc::{AllocError, AllocFailed};
use thiserror::Error;

/// Why a node's name, a pool or a routing was refused.
#[derive(Clone, Copy, Debug, PartialEq, Eq, Error)]
pub enum PoolError {
    /// A pool has no node.
    #[error("a pool has no node")]
    EmptyPool,
    /// A pool has more than 1,024 nodes.
    #[error("a pool has more than 1024 nodes")]
    TooManyNodes,
    /// A node's name is empty, longer than 255 bytes, or holds a byte that no name may hold.
    #[error("a node's name is not 1 to 255 visible ASCII characters other than a comma")]
    BadName,
    /// A pool names one node twice.
    #[error("a node is named twice in one pool")]
    RepeatedName,
    /// A node stands in two pools of a routing.
    #[error("a node is named in two pools of a routing")]
    SharedName,
    /// Memory was refused.
    #[error("out of memory")]
    OutOfMemory,
    /// A routing has more than five pools.
    #[error("a routing has more than 5 pools")]
    TooManyPools,
}

impl PoolError {
    ghost use Rattle.mr_pools.specs.PoolError.{number_of_refusal};

    /// The refusal's number.
    pub fn number(self) -> u8
        ensures { result ≡ number_of_refusal self }
    {
        match self {
            PoolError::EmptyPool => 1,
            PoolError::TooManyNodes => 2,
            PoolError::BadName => 3,
            PoolError::RepeatedName => 4,
            PoolError::SharedName => 5,
            PoolError::OutOfMemory => 6,
            PoolError::TooManyPools => 7,
        }
    }
}

impl From<AllocError> for PoolError {
    ghost use Rattle.std.specs.Prelude.{◌≡◌};
    ghost use Rattle.mr_pools.specs.declared.error.PoolError.TheVariants.{OutOfMemory};

    ghost from_gives = { λ _ e. e ≡ OutOfMemory };

    fn from(_e: AllocError) -> PoolError {
        PoolError::OutOfMemory
    }
}

impl<T: Drop> From<AllocFailed<T>> for PoolError {
    ghost use Rattle.std.specs.Prelude.{◌≡◌};
    ghost use Rattle.mr_pools.specs.declared.error.PoolError.TheVariants.{OutOfMemory};

    ghost from_gives = { λ _ e. e ≡ OutOfMemory };

    fn from(_e: AllocFailed<T>) -> PoolError {
        PoolError::OutOfMemory
    }
}
