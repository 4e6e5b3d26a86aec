//! Why a history couldn't grow.
ghost use Rattle.std.specs.Prelude.{◌≡◌};

use std::alloc::AllocError;
use thiserror::Error;

/// Why a history couldn't grow.
#[derive(Clone, Copy, Debug, PartialEq, Eq, Error)]
pub enum HistoryError {
    /// Memory was refused.
    #[error("out of memory")]
    OutOfMemory,
}

impl HistoryError {
    ghost use Rattle.mr_history.specs.HistoryError.{number_of_refusal};

    /// The refusal's number.
    pub fn number(self) -> u8
        ensures { result ≡ number_of_refusal self }
    {
        match self {
            HistoryError::OutOfMemory => 1,
        }
    }
}

impl From<AllocError> for HistoryError {
    ghost use Rattle.std.specs.Prelude.{◌≡◌};
    ghost use Rattle.mr_history.specs.declared.error.HistoryError.TheVariants.{OutOfMemory};

    ghost from_gives = { λ _ e. e ≡ OutOfMemory };

    fn from(_e: AllocError) -> HistoryError {
        HistoryError::OutOfMemory
    }
}
