//! Why a book isn't closed as one that stands with what its sessions did.
use crate::book::Book;
use crate::carrier::Carrier;
use crate::recorded_proxy::RecordedProxy;
use std::fmt;
use thiserror::Error;

/// Why a book isn't closed as one that stands with what its sessions did.
#[derive(Drop, Error)]
pub enum CloseError<C: Carrier> {
    /// The book doesn't stand with what its sessions did: something was done beside it, or is told that wasn't done.
    #[error("the book differs from what was done")]
    BookDiffers(Book),
    /// Memory was refused. Here is the proxy as it was, so that its book can be closed later.
    #[error("out of memory")]
    OutOfMemory(RecordedProxy<C>),
}

impl<C: Carrier> fmt::Debug for CloseError<C> {
    fn fmt<W: fmt::Write>(&self, f: &mut fmt::Formatter<W>) -> fmt::Result {
        match self {
            CloseError::BookDiffers(_) => write!(f, "BookDiffers"),
            CloseError::OutOfMemory(_) => write!(f, "OutOfMemory"),
        }
    }
}

impl<C: Carrier> CloseError<C> {
    ghost use Rattle.std.specs.Prelude.{◌≡◌};
    ghost use Rattle.mr_desks.specs.Closing.{number_of_close_error};

    /// The error's number: BookDiffers is 4 and OutOfMemory 8.
    pub fn number(&self) -> u8
        ensures { result ≡ number_of_close_error self.now }
    {
        match self {
            CloseError::BookDiffers(_) => 4,
            CloseError::OutOfMemory(_) => 8,
        }
    }
}
