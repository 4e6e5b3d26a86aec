//! What a history is made of.
ghost use Rattle.std.specs.Prelude.{◌≡◌, IfOk};

use crate::op_id::OpId;
use mr_phases::Side;
use mr_text::{Block, Key, Reply, Request};
use std::alloc::AllocError;

/// Who stored an item.
#[derive(Clone, Copy, Debug, PartialEq, Eq)]
pub enum Author {
    /// It was held from the beginning on.
    Beginning,
    /// A request stored it.
    By(OpId),
}

/// One thing that happened.
#[derive(Debug, Drop)]
pub enum Entry {
    /// A proxy accepted a request and gave it its name.
    Issued {
        /// The request's name.
        op: OpId,
        /// The proxy.
        proxy: u32,
        /// What was asked.
        request: Request,
    },
    /// A node kept an item.
    Stored {
        /// Who stored it.
        by: Author,
        /// The item's name.
        key: Key,
        /// The client's number.
        flags: u32,
        /// The data.
        block: Block,
    },
    /// A node performed a delete, whether it found an item or not.
    Removed {
        /// The delete.
        op: OpId,
        /// The side of the node's pool.
        side: Side,
        /// The key.
        key: Key,
    },
    /// A request was answered.
    Answered {
        /// The request's name.
        op: OpId,
        /// The answer.
        reply: Reply,
    },
}

impl Entry {
    /// An equal entry.
    pub fn copy(&self) -> Result<Entry, AllocError>
        ensures { IfOk result (λ entry. entry ≡ self.now) }
    {
        Ok(match self {
            Entry::Issued { op, proxy, request } => Entry::Issued {
                op: *op,
                proxy: *proxy,
                request: request.copy()?,
            },
            Entry::Stored {
                by,
                key,
                flags,
                block,
            } => Entry::Stored {
                by: *by,
                key: key.copy()?,
                flags: *flags,
                block: block.copy()?,
            },
            Entry::Removed { op, side, key } => Entry::Removed {
                op: *op,
                side: *side,
                key: key.copy()?,
            },
            Entry::Answered { op, reply } => Entry::Answered {
                op: *op,
                reply: reply.copy()?,
            },
        })
    }
}
