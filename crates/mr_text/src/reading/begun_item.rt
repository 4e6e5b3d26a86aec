//! What the line of an item said whose block isn't whole yet.
ghost use Rattle.std.specs.Prelude.{◌≡◌, ◌≤◌, IfOk};
ghost use Rattle.mr_text.specs.Key.{IsKey};
ghost use Rattle.mr_text.specs.Limits.{MAX_BLOCK};

use crate::key::Key;
use crate::limits::MAX_KEY;
use arrayvec::ArrayVec;
use std::alloc::{AllocError, Global};
use std::marker::Model;

/// An item of which the line was read, and not yet the block. Of the line it keeps what it said, without taking memory.
#[derive(Drop)]
pub(crate) struct BegunItem {
    key: ArrayVec<u8, MAX_KEY>,
    flags: u32,
    block_length: usize,
}

impl Model for BegunItem {
    ghost use Rattle.std.specs.Prelude.{◌≤◌};
    ghost use Rattle.mr_text.specs.Key.{IsKey};
    ghost use Rattle.mr_text.specs.Limits.{MAX_BLOCK};
    ghost use Rattle.mr_text.specs.steps.BegunItem.{SaidItem};

    ghost Value = { SaidItem };

    ghost view = { λ i. record { key = i.key.items; flags = i.flags; block_length = i.block_length } };

    ghost invariant = { λ i. IsKey i.key.items × (i.block_length ≤ MAX_BLOCK) };
}

impl BegunItem {
    /// What a line said.
    pub(crate) fn of(key: &[u8], flags: u32, block_length: usize) -> BegunItem
        requires key { IsKey key.now }
        requires block { block_length ≤ MAX_BLOCK }
        ensures { result ≡ record { key = key.now; flags = flags; block_length = block_length } }
    {
        let mut room = ArrayVec::new();
        let _fits = room.try_extend_from_slice(key);
        BegunItem {
            key: room,
            flags,
            block_length,
        }
    }

    /// How many bytes the block is to have.
    pub(crate) fn block_length(&self) -> usize
        ensures length { result ≡ self.now.block_length }
        ensures allowed { result ≤ MAX_BLOCK }
    {
        self.block_length
    }

    /// The key that the line named.
    pub(crate) fn key(&self, alloc: Global) -> Result<Key, AllocError>
        ensures { IfOk result (λ key. key ≡ self.now.key) }
    {
        Key::of(alloc, self.key.as_slice())
    }

    /// The flags that the line named.
    pub(crate) fn flags(&self) -> u32
        ensures { result ≡ self.now.flags }
    {
        self.flags
    }
}
