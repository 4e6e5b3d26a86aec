//! Why a clock or readings refuse.
ghost use Rattle.std.specs.Prelude.{◌≡◌};

use std::alloc::AllocError;
use thiserror::Error;

/// A clock gave no reading.
#[derive(Clone, Copy, Debug, PartialEq, Eq, Error)]
#[error("the clock failed")]
pub struct ClockFault;

/// Why a clock gave no reading, or readings refused a call.
#[derive(Clone, Copy, Debug, PartialEq, Eq, Error)]
pub enum ClockError {
    /// A clock gave no reading.
    #[error("the clock failed")]
    ClockFault,
    /// There is no reading of that proxy.
    #[error("there is no proxy of that number")]
    NoSuchProxy,
    /// Memory was refused.
    #[error("out of memory")]
    OutOfMemory,
}

impl ClockError {
    ghost use Rattle.mr_clock.specs.ClockError.{number_of_refusal};

    /// The refusal's number.
    pub fn number(self) -> u8
        ensures { result ≡ number_of_refusal self }
    {
        match self {
            ClockError::ClockFault => 1,
            ClockError::NoSuchProxy => 2,
            ClockError::OutOfMemory => 3,
        }
    }
}

impl From<ClockFault> for ClockError {
    ghost use Rattle.std.specs.Prelude.{◌≡◌};
    ghost use Rattle.mr_clock.specs.declared.error.ClockError.TheVariants.{ClockFault};

    ghost from_gives = { λ _ e. e ≡ ClockFault };

    fn from(_e: ClockFault) -> ClockError {
        ClockError::ClockFault
    }
}

impl From<AllocError> for ClockError {
    ghost use Rattle.std.specs.Prelude.{◌≡◌};
    ghost use Rattle.mr_clock.specs.declared.error.ClockError.TheVariants.{OutOfMemory};

    ghost from_gives = { λ _ e. e ≡ OutOfMemory };

    fn from(_e: AllocError) -> ClockError {
        ClockError::OutOfMemory
    }
}
