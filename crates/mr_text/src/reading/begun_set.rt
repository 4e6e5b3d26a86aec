//! What the line of a set said whose block isn't whole yet.
ghost use Rattle.std.specs.Prelude.{◌≡◌, ◌≤◌, IfOk};
ghost use Rattle.mr_text.specs.Key.{IsKey};
ghost use Rattle.mr_text.specs.Limits.{MAX_BLOCK};
ghost use Rattle.mr_text.specs.declared.request.Request.TheVariants as request;

use crate::block::Block;
use crate::key::Key;
use crate::limits::MAX_KEY;
use crate::request::Request;
use arrayvec::ArrayVec;
use std::alloc::{AllocError, Global};
use std::marker::Model;

/// A set of which the line was read, and not yet the block. Of the line it keeps what it said, without taking memory.
#[derive(Drop)]
pub(crate) struct BegunSet {
    key: ArrayVec<u8, MAX_KEY>,
    flags: u32,
    exptime: i64,
    block_length: usize,
    noreply: bool,
}

impl Model for BegunSet {
    ghost use Rattle.std.specs.Prelude.{◌≤◌};
    ghost use Rattle.mr_text.specs.Key.{IsKey};
    ghost use Rattle.mr_text.specs.Limits.{MAX_BLOCK};
    ghost use Rattle.mr_text.specs.steps.BegunSet.{SetWords};

    ghost Value = { SetWords };

    ghost view = { λ s. record {
      key = s.key.items;
      flags = s.flags;
      exptime = s.exptime;
      block_length = s.block_length;
      noreply = s.noreply;
    } };

    ghost invariant = { λ s. IsKey s.key.items × (s.block_length ≤ MAX_BLOCK) };
}

impl BegunSet {
    /// What a line said.
    pub(crate) fn of(
        key: &[u8],
        flags: u32,
        exptime: i64,
        block_length: usize,
        noreply: bool,
    ) -> BegunSet
        requires key { IsKey key.now }
        requires block { block_length ≤ MAX_BLOCK }
        ensures { result ≡ record {
          key = key.now;
          flags = flags;
          exptime = exptime;
          block_length = block_length;
          noreply = noreply;
        } }
    {
        let mut room = ArrayVec::new();
        let _fits = room.try_extend_from_slice(key);
        BegunSet {
            key: room,
            flags,
            exptime,
            block_length,
            noreply,
        }
    }

    /// How many bytes the block is to have.
    pub(crate) fn block_length(&self) -> usize
        ensures length { result ≡ self.now.block_length }
        ensures allowed { result ≤ MAX_BLOCK }
    {
        self.block_length
    }

    /// The key that the line named.
    pub(crate) fn key(&self, alloc: Global) -> Result<Key, AllocError>
        ensures { IfOk result (λ key. key ≡ self.now.key) }
    {
        Key::of(alloc, self.key.as_slice())
    }

    /// The set, of that key and with this block.
    pub(crate) fn with(&self, key: Key, block: Block) -> Request
        requires { key ≡ self.now.key }
        ensures { result ≡ request.Set self.now.key self.now.flags self.now.exptime block self.now.noreply }
    {
        Request::Set {
            key,
            flags: self.flags,
            exptime: self.exptime,
            block,
            noreply: self.noreply,
        }
    }
}
