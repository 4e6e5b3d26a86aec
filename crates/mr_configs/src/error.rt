//! Why a configuration, a script or a transcript is refused.
ghost use Rattle.std.specs.Prelude.{◌≡◌};

use mr_phases::ScheduleError;
use mr_pools::PoolError;
use mr_proxy::WorldError;
use std::alloc::{AllocError, AllocFailed};
use thiserror::Error;

/// Why a configuration, a script or a transcript was refused.
#[derive(Clone, Copy, Debug, PartialEq, Eq, Error)]
pub enum PlanError {
    /// The bytes are no JSON text in UTF-8.
    #[error("this is no JSON text")]
    NotJson,
    /// A value is of another kind than is wanted there.
    #[error("a value is of the wrong kind")]
    WrongKind,
    /// A key that has to be there is missing.
    #[error("a key is missing")]
    MissingKey,
    /// A key is there that isn't known.
    #[error("a key is unknown")]
    UnknownKey,
    /// A pool was refused, or the pools of the route together.
    #[error("a pool was refused: {0}")]
    BadPool(PoolError),
    /// The route is no MigrateRoute, or no more than four inside one another, or it names a pool that isn't there.
    #[error("the route is no chain of up to four MigrateRoutes between pools that are there")]
    BadRoute,
    /// The schedule was refused.
    #[error("the schedule was refused: {0}")]
    BadSchedule(ScheduleError),
    /// The hash has another name than `sum` or `fnv1a32`.
    #[error("the hash is neither sum nor fnv1a32")]
    BadHash,
    /// The fleet can't be set up.
    #[error("the setup was refused: {0}")]
    BadSetup(WorldError),
    /// The event at this index is none that can be made.
    #[error("event {0} can't be read")]
    BadEvent(usize),
    /// The text, or a list in it, is larger than a script or a transcript may be.
    #[error("this is too large")]
    TooLarge,
    /// The fleet refused the event at this index.
    #[error("event {0} was refused: {1}")]
    EventRefused(usize, WorldError),
    /// Memory was refused.
    #[error("out of memory")]
    OutOfMemory,
}

impl PlanError {
    ghost use Rattle.mr_configs.specs.PlanError.{number_of_refusal};

    /// The refusal's number: 1 to 13.
    pub fn number(self) -> u8
        ensures { result ≡ number_of_refusal self }
    {
        match self {
            PlanError::NotJson => 1,
            PlanError::WrongKind => 2,
            PlanError::MissingKey => 3,
            PlanError::UnknownKey => 4,
            PlanError::BadPool(_) => 5,
            PlanError::BadRoute => 6,
            PlanError::BadSchedule(_) => 7,
            PlanError::BadHash => 8,
            PlanError::BadSetup(_) => 9,
            PlanError::BadEvent(_) => 10,
            PlanError::TooLarge => 11,
            PlanError::EventRefused(_, _) => 12,
            PlanError::OutOfMemory => 13,
        }
    }
}

impl From<AllocError> for PlanError {
    ghost use Rattle.std.specs.Prelude.{◌≡◌};
    ghost use Rattle.mr_configs.specs.declared.error.PlanError.TheVariants.{OutOfMemory};

    ghost from_gives = { λ _ e. e ≡ OutOfMemory };

    fn from(_e: AllocError) -> PlanError {
        PlanError::OutOfMemory
    }
}

impl<T: Drop> From<AllocFailed<T>> for PlanError {
    ghost use Rattle.std.specs.Prelude.{◌≡◌};
    ghost use Rattle.mr_configs.specs.declared.error.PlanError.TheVariants.{OutOfMemory};

    ghost from_gives = { λ _ e. e ≡ OutOfMemory };

    fn from(_e: AllocFailed<T>) -> PlanError {
        PlanError::OutOfMemory
    }
}
