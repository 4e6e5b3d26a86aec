//! The commands of a node.
ghost use Rattle.std.specs.Prelude.{◌≡◌, ◌↔◌, IsTrue, IfOk};
ghost use Rattle.mr_node.specs.Command.{key_of_command};

use mr_text::{Block, Key};
use std::alloc::AllocError;

/// What a cache is told to do.
#[derive(Debug, Drop)]
pub enum NodeCommand {
    /// To give the item under this key.
    Get(Key),
    /// To keep an item.
    Set {
        /// The name.
        key: Key,
        /// A number given back with the item.
        flags: u32,
        /// When the item expires: 0 never; a negative number at once; up to 2,592,000 so many seconds from now;
        /// above that at this moment, in seconds since the epoch.
        exptime: i64,
        /// The data.
        block: Block,
    },
    /// To drop the item under this key.
    Delete(Key),
}

impl NodeCommand {
    /// The key that the command names.
    pub fn key(&self) -> &Key
        ensures { result.now ≡ key_of_command self.now }
    {
        match self {
            NodeCommand::Get(key) | NodeCommand::Set { key, .. } | NodeCommand::Delete(key) => key,
        }
    }

    /// Whether the other command is equal. It takes no memory.
    pub fn same_as(&self, other: &NodeCommand) -> bool
        ensures { IsTrue result ↔ (self.now ≡ other.now) }
    {
        match (self, other) {
            (NodeCommand::Get(key), NodeCommand::Get(other_key))
            | (NodeCommand::Delete(key), NodeCommand::Delete(other_key)) => key.same_as(other_key),
            (
                NodeCommand::Set {
                    key,
                    flags,
                    exptime,
                    block,
                },
                NodeCommand::Set {
                    key: other_key,
                    flags: other_flags,
                    exptime: other_exptime,
                    block: other_block,
                },
            ) => {
                key.same_as(other_key)
                    && flags == other_flags
                    && exptime == other_exptime
                    && block.same_as(other_block)
            }
            _ => false,
        }
    }

    /// An equal command.
    pub fn copy(&self) -> Result<NodeCommand, AllocError>
        ensures { IfOk result (λ command. command ≡ self.now) }
    {
        Ok(match self {
            NodeCommand::Get(key) => NodeCommand::Get(key.copy()?),
            NodeCommand::Set {
                key,
                flags,
                exptime,
                block,
            } => NodeCommand::Set {
                key: key.copy()?,
                flags: *flags,
                exptime: *exptime,
                block: block.copy()?,
            },
            NodeCommand::Delete(key) => NodeCommand::Delete(key.copy()?),
        })
    }
}
