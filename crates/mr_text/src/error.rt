//! Why texts and values are refused, and the faults of devices.
ghost use Rattle.std.specs.Prelude.{◌≡◌};

use std::alloc::{AllocError, AllocFailed};
use thiserror::Error;

/// Why a text, or a value that a text is to spell, was refused.
#[derive(Clone, Copy, Debug, PartialEq, Eq, Error)]
pub enum TextError {
    /// A line, or what would be one, is above its limit.
    #[error("line too long")]
    LineTooLong,
    /// A key is empty, longer than 250 bytes, or holds a space or a control character.
    #[error("bad key")]
    BadKey,
    /// A number isn't one, or doesn't fit its field.
    #[error("bad number")]
    BadNumber,
    /// The number of words is wrong, or an optional word isn't one that may stand there.
    #[error("wrong words")]
    WrongWords,
    /// A block is longer than its limit.
    #[error("data too long")]
    DataTooLong,
    /// A block isn't followed by a carriage return and a line feed.
    #[error("bad data end")]
    BadDataEnd,
    /// The first word is no command. With `closes` a block follows that can't be told from commands.
    #[error("unknown command")]
    UnknownCommand { closes: bool },
    /// The input ended inside a command.
    #[error("truncated")]
    Truncated,
    /// The reader is closed.
    #[error("closed")]
    Closed,
    /// Memory was refused.
    #[error("out of memory")]
    OutOfMemory,
}

impl TextError {
    ghost use Rattle.mr_text.specs.TextError.{number_of_refusal};

    /// The refusal's number.
    pub fn number(self) -> u8
        ensures { result ≡ number_of_refusal self }
    {
        match self {
            TextError::LineTooLong => 1,
            TextError::BadKey => 2,
            TextError::BadNumber => 3,
            TextError::WrongWords => 4,
            TextError::DataTooLong => 5,
            TextError::BadDataEnd => 6,
            TextError::UnknownCommand { .. } => 7,
            TextError::Truncated => 8,
            TextError::Closed => 9,
            TextError::OutOfMemory => 10,
        }
    }
}

impl From<AllocError> for TextError {
    ghost use Rattle.std.specs.Prelude.{◌≡◌};
    ghost use Rattle.mr_text.specs.declared.error.TextError.TheVariants.{OutOfMemory};

    ghost from_gives = { λ _ e. e ≡ OutOfMemory };

    fn from(_e: AllocError) -> TextError {
        TextError::OutOfMemory
    }
}

impl<T: Drop> From<AllocFailed<T>> for TextError {
    ghost use Rattle.std.specs.Prelude.{◌≡◌};
    ghost use Rattle.mr_text.specs.declared.error.TextError.TheVariants.{OutOfMemory};

    ghost from_gives = { λ _ e. e ≡ OutOfMemory };

    fn from(_e: AllocFailed<T>) -> TextError {
        TextError::OutOfMemory
    }
}

/// A source failed.
#[derive(Clone, Copy, Debug, PartialEq, Eq, Error)]
#[error("read fault")]
pub struct ReadFault;

/// A sink failed.
#[derive(Clone, Copy, Debug, PartialEq, Eq, Error)]
#[error("write fault")]
pub struct WriteFault;
