//! Why what was asked of a service isn't there.
ghost use Rattle.std.specs.Prelude.{◌≡◌};
ghost use Rattle.mr_http.specs.Fault.{number_of_fault};

use mr_text::{ReadFault, WriteFault};
use std::alloc::AllocError;
use thiserror::Error;

/// Why what was asked of a service isn't there.
#[derive(Clone, Copy, Debug, PartialEq, Eq, Error)]
pub enum FetchFault {
    /// The write of the request failed, and nothing was read.
    #[error("a write failed")]
    WriteFault,
    /// A read failed.
    #[error("a read failed")]
    ReadFault,
    /// More came than is read of an answer.
    #[error("the answer is too large")]
    TooLarge,
    /// What came is no response, or one of another status than 200, or its body isn't whole.
    #[error("there is no response with a whole body")]
    NoResponse,
    /// Memory was refused.
    #[error("out of memory")]
    OutOfMemory,
}

impl FetchFault {
    /// The fault's number: 1 to 5.
    pub fn number(self) -> u8
        ensures { result ≡ number_of_fault self }
    {
        match self {
            FetchFault::WriteFault => 1,
            FetchFault::ReadFault => 2,
            FetchFault::TooLarge => 3,
            FetchFault::NoResponse => 4,
            FetchFault::OutOfMemory => 5,
        }
    }
}

impl From<ReadFault> for FetchFault {
    ghost use Rattle.std.specs.Prelude.{◌≡◌};
    ghost use Rattle.mr_http.specs.declared.error.FetchFault.TheVariants.{ReadFault};

    ghost from_gives = { λ _ fault. fault ≡ ReadFault };

    fn from(_: ReadFault) -> FetchFault {
        FetchFault::ReadFault
    }
}

impl From<WriteFault> for FetchFault {
    ghost use Rattle.std.specs.Prelude.{◌≡◌};
    ghost use Rattle.mr_http.specs.declared.error.FetchFault.TheVariants.{WriteFault};

    ghost from_gives = { λ _ fault. fault ≡ WriteFault };

    fn from(_: WriteFault) -> FetchFault {
        FetchFault::WriteFault
    }
}

impl From<AllocError> for FetchFault {
    ghost use Rattle.std.specs.Prelude.{◌≡◌};
    ghost use Rattle.mr_http.specs.declared.error.FetchFault.TheVariants.{OutOfMemory};

    ghost from_gives = { λ _ fault. fault ≡ OutOfMemory };

    fn from(_: AllocError) -> FetchFault {
        FetchFault::OutOfMemory
    }
}
