//! Whether a block is there, with its end.
ghost use Rattle.std.specs.Prelude.{◌≡◌, ◌+◌, ◌^◌, ◌<◌, ◌≤◌, true, length};
ghost use Rattle.mr_text.specs.steps.Reading.{block_reading};

use crate::error::TextError;
use mr_lines::{BlockEnd, block_end};

/// Whether a block of this length and the line end behind it are there.
#[inline(always)]
#[tactic(auto, unfolding(crate::specs::steps::Reading::block_reading))]
pub(crate) fn has_block(block_length: usize, bytes: &[u8]) -> Result<bool, TextError>
    requires { block_length + 2 < 2 ^ 64 }
    ensures reading { result ≡ block_reading block_length bytes.now }
    ensures within { result ≡ Ok true → block_length + 2 ≤ length bytes.now }
{
    match block_end(block_length, bytes) {
        BlockEnd::Awaited => Ok(false),
        BlockEnd::Found => Ok(true),
        BlockEnd::Wrong => Err(TextError::BadDataEnd),
    }
}
