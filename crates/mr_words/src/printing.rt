//! How a whole text is printed.
ghost use Rattle.std.specs.Prelude.{◌≡◌, IsErrOf};
ghost use Rattle.mr_words.specs.Printing.{WritesAtOnce};

use mr_text::Sink;
use std::alloc::AllocError;
use thiserror::Error;

/// Why a text wasn't printed.
#[derive(Clone, Copy, Debug, PartialEq, Eq, Error)]
pub enum PrintFault {
    /// Memory was refused, and nothing was written.
    #[error("out of memory")]
    Memory,
    /// The writer failed.
    #[error("write fault")]
    Write,
}

impl From<AllocError> for PrintFault {
    ghost use Rattle.std.specs.Prelude.{◌≡◌};
    ghost use Rattle.mr_words.specs.declared.printing.PrintFault.TheVariants.{Memory};

    ghost from_gives = { λ _ error. error ≡ Memory };

    fn from(_error: AllocError) -> PrintFault {
        PrintFault::Memory
    }
}

/// Writes a text in one call.
pub fn write_at_once<W: Sink>(text: &[u8], writer: &mut W) -> Result<(), PrintFault>
    ensures text { WritesAtOnce text.now (W.told writer.old) result (W.told writer.new) }
    ensures memory { IsErrOf result PrintFault.Memory → writer.new ≡ writer.old }
{
    match writer.write_all(text) {
        Ok(()) => Ok(()),
        Err(_) => Err(PrintFault::Write),
    }
}
