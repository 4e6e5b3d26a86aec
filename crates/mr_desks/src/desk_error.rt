//! Why a desk refuses what it is asked.
use mr_clock::ClockFault;
use mr_proxy::ProxyError;
use mr_text::Cause;
use std::alloc::AllocError;
use thiserror::Error;

/// Why a desk refuses what it is asked. What its clock and its proxy refuse keeps their numbers.
#[derive(Clone, Copy, Debug, PartialEq, Eq, Error)]
pub enum DeskError {
    /// The clock gave no reading.
    #[error("the clock failed")]
    ClockFault,
    /// No number is left for a request of this proxy, or for one more of this session.
    #[error("no number is left for a request")]
    NumbersSpent,
    /// As many requests are under way as the proxy has room for.
    #[error("too many requests are under way")]
    NoRoom,
    /// The book has no room for the steps of another request.
    #[error("the book is full")]
    BookFull,
    /// Memory was refused.
    #[error("out of memory")]
    OutOfMemory,
    /// No request of this name is under way.
    #[error("no such request is under way")]
    NoSuchOp,
}

impl From<AllocError> for DeskError {
    ghost use Rattle.std.specs.Prelude.{◌≡◌};
    ghost use Rattle.mr_desks.specs.declared.desk_error.DeskError.TheVariants.{OutOfMemory};

    ghost from_gives = { λ _ e. e ≡ OutOfMemory };

    fn from(_e: AllocError) -> DeskError {
        DeskError::OutOfMemory
    }
}

impl From<ClockFault> for DeskError {
    ghost use Rattle.std.specs.Prelude.{◌≡◌};
    ghost use Rattle.mr_desks.specs.declared.desk_error.DeskError.TheVariants.{ClockFault};

    ghost from_gives = { λ _ e. e ≡ ClockFault };

    fn from(_e: ClockFault) -> DeskError {
        DeskError::ClockFault
    }
}

impl From<ProxyError> for DeskError {
    ghost use Rattle.std.specs.Prelude.{◌≡◌};
    ghost use Rattle.mr_desks.specs.DeskError.{desk_refusal_of};

    ghost from_gives = { λ refusal e. e ≡ desk_refusal_of refusal };

    fn from(refusal: ProxyError) -> DeskError {
        match refusal {
            ProxyError::NumbersSpent => DeskError::NumbersSpent,
            ProxyError::NoRoom => DeskError::NoRoom,
            ProxyError::OutOfMemory => DeskError::OutOfMemory,
            ProxyError::NoSuchOp => DeskError::NoSuchOp,
        }
    }
}

impl DeskError {
    ghost use Rattle.std.specs.Prelude.{◌≡◌, ◌≢◌, Some};
    ghost use Rattle.mr_desks.specs.DeskError.{number_of_desk_refusal, cause_of_refusal};
    ghost use Rattle.mr_desks.specs.declared.desk_error.DeskError.{DeskError};

    /// The refusal's number: a clock's and a proxy's keep their own, BookFull is 3 and OutOfMemory 8.
    pub fn number(self) -> u8
        ensures { result ≡ number_of_desk_refusal self }
    {
        match self {
            DeskError::ClockFault => 1,
            DeskError::NumbersSpent => 3,
            DeskError::NoRoom => 1,
            DeskError::BookFull => 3,
            DeskError::OutOfMemory => 8,
            DeskError::NoSuchOp => 4,
        }
    }

    /// What a client is told whose request was refused. NoSuchOp refuses none.
    pub fn cause(self) -> Cause
        requires { self ≢ DeskError.NoSuchOp }
        ensures { cause_of_refusal self ≡ Some result }
    {
        match self {
            DeskError::ClockFault => Cause::ClockFault,
            DeskError::NumbersSpent => Cause::NumbersSpent,
            DeskError::NoRoom => Cause::Busy,
            DeskError::BookFull => Cause::BookFull,
            DeskError::OutOfMemory => Cause::OutOfMemory,
            DeskError::NoSuchOp => unreachable!(),
        }
    }
}
