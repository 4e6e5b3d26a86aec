//! A key with its data, as an answer to a get tells it.
ghost use Rattle.std.specs.Prelude.{◌≡◌, IfOk, ◌↔◌, IsTrue};

use crate::block::Block;
use crate::key::Key;
use std::alloc::AllocError;

/// A key with what is kept under it.
#[derive(Debug, Drop)]
pub struct Item {
    /// The name.
    pub key: Key,
    /// A number that the client chose, given back as it came.
    pub flags: u32,
    /// The data.
    pub block: Block,
}

impl Item {
    /// Whether the other item is equal.
    pub fn same_as(&self, other: &Item) -> bool
        ensures { IsTrue result ↔ (self.now ≡ other.now) }
    {
        self.key.same_as(&other.key)
            && self.flags == other.flags
            && self.block.same_as(&other.block)
    }

    /// An equal item.
    pub fn copy(&self) -> Result<Item, AllocError>
        ensures { IfOk result (λ item. item ≡ self.now) }
    {
        Ok(Item {
            key: self.key.copy()?,
            flags: self.flags,
            block: self.block.copy()?,
        })
    }
}
