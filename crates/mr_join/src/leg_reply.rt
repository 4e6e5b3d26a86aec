//! The reply of one leg.
ghost use Rattle.std.specs.Prelude.{◌≡◌, ◌↔◌, IsTrue, IfOk};

use mr_text::{Block, Cause};
use std::alloc::AllocError;

/// What a node answers to one leg of a request.
#[derive(Debug, Drop)]
pub enum LegReply {
    /// A get found an item.
    Hit {
        /// The number that was set with the item.
        flags: u32,
        /// The data.
        block: Block,
    },
    /// A get found none.
    Miss,
    /// A set was performed.
    Stored,
    /// A delete found an item.
    Deleted,
    /// A delete found none.
    NotFound,
    /// The leg wasn't performed, or isn't known to be.
    Failed(Cause),
}

impl LegReply {
    /// An equal reply.
    pub fn copy(&self) -> Result<LegReply, AllocError>
        ensures { IfOk result (λ reply. reply ≡ self.now) }
    {
        Ok(match self {
            LegReply::Hit { flags, block } => LegReply::Hit {
                flags: *flags,
                block: block.copy()?,
            },
            LegReply::Miss => LegReply::Miss,
            LegReply::Stored => LegReply::Stored,
            LegReply::Deleted => LegReply::Deleted,
            LegReply::NotFound => LegReply::NotFound,
            LegReply::Failed(cause) => LegReply::Failed(cause.copy()?),
        })
    }

    /// Whether the other reply is equal. It takes no memory.
    pub fn same_as(&self, other: &LegReply) -> bool
        ensures { IsTrue result ↔ (self.now ≡ other.now) }
    {
        match (self, other) {
            (
                LegReply::Hit { flags, block },
                LegReply::Hit {
                    flags: other_flags,
                    block: other_block,
                },
            ) => flags == other_flags && block.same_as(other_block),
            (LegReply::Miss, LegReply::Miss)
            | (LegReply::Stored, LegReply::Stored)
            | (LegReply::Deleted, LegReply::Deleted)
            | (LegReply::NotFound, LegReply::NotFound) => true,
            (LegReply::Failed(cause), LegReply::Failed(other_cause)) => cause.same_as(other_cause),
            _ => false,
        }
    }
}
