//! Why a canary doesn't fly to its end.

use mr_probes::KeyError;
use mr_servers::OpenFault;
use mr_words::PrintFault;
use std::alloc::AllocError;
use thiserror::Error;

/// Why a canary doesn't fly to its end. What was written stays, and nothing is written after it.
#[derive(Clone, Copy, Debug, PartialEq, Eq, Error)]
pub enum FlightFault {
    /// Memory was refused.
    #[error("out of memory")]
    Memory,
    /// The writer failed.
    #[error("write fault")]
    Write,
    /// The machine gave no number for its run.
    #[error("no number can be had")]
    NoNumber,
    /// Its prefix makes no key.
    #[error("the prefix makes no key")]
    BadPrefix,
    /// No proxy was reached within five seconds, or the system let no connections be opened or waited for.
    #[error("no proxy can be asked")]
    Net,
}

impl From<AllocError> for FlightFault {
    ghost use Rattle.std.specs.Prelude.{◌≡◌};
    ghost use Rattle.mr_flights.specs.declared.fault.FlightFault.TheVariants.{Memory};

    ghost from_gives = { λ _ fault. fault ≡ Memory };

    fn from(_error: AllocError) -> FlightFault {
        FlightFault::Memory
    }
}

impl From<PrintFault> for FlightFault {
    ghost use Rattle.std.specs.Prelude.{◌≡◌};
    ghost use Rattle.mr_flights.specs.Faults.{fault_of_printing};

    ghost from_gives = { λ failed fault. fault ≡ fault_of_printing failed };

    fn from(failed: PrintFault) -> FlightFault {
        match failed {
            PrintFault::Memory => FlightFault::Memory,
            PrintFault::Write => FlightFault::Write,
        }
    }
}

impl From<KeyError> for FlightFault {
    ghost use Rattle.std.specs.Prelude.{◌≡◌};
    ghost use Rattle.mr_flights.specs.Faults.{fault_of_key};

    ghost from_gives = { λ refused fault. fault ≡ fault_of_key refused };

    fn from(refused: KeyError) -> FlightFault {
        match refused {
            KeyError::BadPrefix => FlightFault::BadPrefix,
            KeyError::OutOfMemory => FlightFault::Memory,
        }
    }
}

impl From<OpenFault> for FlightFault {
    ghost use Rattle.std.specs.Prelude.{◌≡◌};
    ghost use Rattle.mr_flights.specs.Faults.{fault_of_opening};

    ghost from_gives = { λ refused fault. fault ≡ fault_of_opening refused };

    fn from(refused: OpenFault) -> FlightFault {
        match refused {
            OpenFault::OutOfMemory => FlightFault::Memory,
            OpenFault::Net | OpenFault::Metrics => FlightFault::Net,
        }
    }
}
