//! The data of items.
ghost use Rattle.std.specs.Prelude.{◌≡◌, ◌+◌, ◌≤◌, length, take, drop, IfOk, IfErr, ◌↔◌, IsTrue};
ghost use Rattle.mr_text.specs.Block.{IsBlock};
ghost use Rattle.mr_text.specs.declared.error.TextError.TheVariants.{DataTooLong};

use crate::error::TextError;
use crate::limits::{LARGE_BLOCK, MAX_BLOCK};
use bytes::Bytes;
use std::alloc::{AllocError, AllocFailed, Global};
use std::marker::Model;

/// Where the bytes of a block stand.
#[derive(Debug, Drop)]
pub(crate) enum Place {
    /// In a room of their own.
    Own(Vec<u8>),
    /// Where the copies of the block have them too.
    Shared(Bytes),
}

/// The data of an item: up to 1,048,576 bytes of any value. A copy of a large one takes no memory: both share its bytes,
/// which nobody changes.
#[derive(Debug)]
pub struct Block {
    place: Place,
}

// By hand, so that who drops a block needs to know nothing of its places.
impl Drop for Block {
    fn drop(self) {
        let Block { place: _ } = self;
    }
}

impl Model for Block {
    ghost use Rattle.std.specs.Prelude.{ℕ, List};
    ghost use Rattle.mr_text.specs.Block.{IsBlock};
    ghost use Rattle.mr_text.specs.steps.Place.{bytes_at};

    ghost Value = { List ℕ };

    ghost view = { λ b. bytes_at b.place };

    ghost invariant = { λ b. IsBlock (bytes_at b.place) };
}

impl Block {
    ghost use Rattle.mr_text.specs.Making.{MadeWhere};

    /// The block of these bytes, or DataTooLong where they are too many.
    pub fn new(alloc: Global, bytes: &[u8]) -> Result<Block, TextError>
        ensures { MadeWhere (IsBlock bytes.now) DataTooLong bytes.now result }
    {
        if bytes.len() > MAX_BLOCK {
            return Err(TextError::DataTooLong);
        }
        Ok(Block::of(alloc, bytes)?)
    }

    /// The block of bytes that are known to be one.
    #[inline(always)]
    pub(crate) fn of(alloc: Global, bytes: &[u8]) -> Result<Block, AllocError>
        requires { IsBlock bytes.now }
        ensures { IfOk result (λ block. block ≡ bytes.now) }
    {
        let place = if bytes.len() < LARGE_BLOCK {
            Place::Own(Vec::from_slice(alloc, bytes)?)
        } else {
            Place::Shared(Bytes::copy_from_slice(alloc, bytes)?)
        };
        Ok(Block { place })
    }

    /// The block that stands in a room from this place on, and that takes the room along. Where memory for the count of its
    /// owners is refused, the room comes back.
    pub(crate) fn of_room(
        room: Vec<u8>,
        start: usize,
        count: usize,
    ) -> Result<Block, AllocFailed<Vec<u8>>>
        requires within { start + count ≤ length room.items }
        requires allowed { count ≤ MAX_BLOCK }
        ensures block { IfOk result (λ block. block ≡ take count (drop start room.items)) }
        ensures room { IfErr result (λ failed. failed.value.items ≡ room.items) }
    {
        let mut bytes = Bytes::from_vec(room)?;
        bytes.advance(start);
        bytes.truncate(count);
        Ok(Block {
            place: Place::Shared(bytes),
        })
    }

    /// The bytes of the block.
    #[inline(always)]
    pub fn as_bytes(&self) -> &[u8]
        ensures bytes { result.now ≡ self.now }
        ensures block { IsBlock result.now }
    {
        match &self.place {
            Place::Own(bytes) => bytes.as_slice(),
            Place::Shared(bytes) => bytes.as_slice(),
        }
    }

    /// Whether the other block is equal.
    pub fn same_as(&self, other: &Block) -> bool
        ensures { IsTrue result ↔ (self.now ≡ other.now) }
    {
        self.as_bytes() == other.as_bytes()
    }

    /// An equal block.
    #[inline(always)]
    pub fn copy(&self) -> Result<Block, AllocError>
        ensures { IfOk result (λ block. block ≡ self.now) }
    {
        match &self.place {
            Place::Own(bytes) => Block::of(*bytes.allocator(), bytes.as_slice()),
            Place::Shared(bytes) => Ok(Block {
                place: Place::Shared(bytes.clone()?),
            }),
        }
    }
}
