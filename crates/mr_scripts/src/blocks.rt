//! Blocks that texts of JSON show.
ghost use Rattle.std.specs.Prelude.{◌≡◌, Ok, Err, IfOk, IfErr};
ghost use Rattle.serde_json.specs.View.{view};
ghost use Rattle.mr_scripts.specs.BlockDraft.{block_drafted, IsBlockReady};
ghost use Rattle.mr_scripts.specs.Texts.{block_of};

use mr_configs::PlanError;
use mr_configs::fields::text;
use mr_shown::{Format, bytes_of_data, is_data};
use mr_text::{Block, TextError};
use serde_json::Value;
use std::alloc::{AllocError, Global};

/// A block whose text was looked at, and which is yet to be made.
#[derive(Clone, Copy)]
pub struct BlockDraft<'a> {
    /// The format of the text.
    pub format: Format,
    /// The text that shows the block.
    pub text: &'a str,
}

/// Looks at a block, without taking memory.
pub fn block_draft(format: Format, value: &Value) -> Result<BlockDraft<'_>, PlanError>
    ensures block { IfOk result (λ draft. block_of format (view value.now) ≡ Ok (block_drafted draft)) }
    ensures ready { IfOk result (λ draft. IsBlockReady draft) }
    ensures refused { IfErr result (λ e. block_of format (view value.now) ≡ Err e) }
{
    let text = text(value)?;
    if !is_data(format, text) {
        return Err(PlanError::WrongKind);
    }
    Ok(BlockDraft { format, text })
}

impl BlockDraft<'_> {
    /// The block, made.
    pub fn make(&self, alloc: Global) -> Result<Block, AllocError>
        requires { IsBlockReady self.now }
        ensures { IfOk result (λ block. block ≡ block_drafted self.now) }
    {
        let bytes = bytes_of_data(alloc, self.format, self.text)?;
        match Block::new(alloc, bytes.as_slice()) {
            Ok(block) => Ok(block),
            Err(TextError::OutOfMemory) => Err(AllocError),
            Err(_) => unreachable!(),
        }
    }
}
