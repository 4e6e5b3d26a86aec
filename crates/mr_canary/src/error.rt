//! Why a note isn't taken.
ghost use Rattle.std.specs.Prelude.{◌≡◌};

use std::alloc::AllocError;
use thiserror::Error;

/// Why a note isn't taken.
#[derive(Clone, Copy, Debug, PartialEq, Eq, Error)]
pub enum CanaryError {
    /// The key's number is none of the canary's.
    #[error("there is no such key")]
    NoSuchKey,
    /// The key remembers as many values as it may: it takes no more sets until a delete of it is acknowledged.
    #[error("the key has no room for another value")]
    KeyIsFull,
    /// No request of this number waits for an answer.
    #[error("no request of this number waits")]
    NotWaiting,
    /// There is no number for another note.
    #[error("the numbers are used up")]
    NumbersUsedUp,
    /// Memory was refused.
    #[error("out of memory")]
    OutOfMemory,
}

impl From<AllocError> for CanaryError {
    ghost use Rattle.std.specs.Prelude.{◌≡◌};
    ghost use Rattle.mr_canary.specs.declared.error.CanaryError.TheVariants.{OutOfMemory};

    ghost from_gives = { λ _ e. e ≡ OutOfMemory };

    fn from(_e: AllocError) -> CanaryError {
        CanaryError::OutOfMemory
    }
}
