//! What came of a stream and wasn't read yet.
ghost use Rattle.std.specs.Prelude.{◌≡◌, ◌≢◌, ◌+◌, ◌≤◌, ◌++◌, [], length, take, drop, IfOk, IfErr, OnOk, OnErr, MatchBool};
ghost use Rattle.mr_text.specs.Limits.{MAX_BLOCK};

use crate::block::Block;
use crate::limits::{LARGE_BLOCK, MAX_BLOCK, MAX_LINE};
use std::alloc::{AllocError, Global};
use std::marker::Model;
use std::mem;

/// The most room that is kept where no large block is on its way: a line's, with its end.
const MOST_ROOM: usize = MAX_LINE + 2;

/// The most room behind a large block for what comes with its last piece.
const MOST_BEHIND: usize = 65_536;

/// The bytes of a stream that came and weren't read yet.
///
/// They stand in a room that may be longer, and whose other bytes nobody reads. So those that were read give their room
/// back all at once, and none is cleared or dropped by itself.
#[derive(Drop)]
pub(crate) struct KeptBytes {
    room: Vec<u8>,
    /// Where in the room they begin.
    start: usize,
    /// Where in the room they end.
    end: usize,
    /// How many bytes a large block and its end are known to take, while they are on their way, and else 0.
    awaited: usize,
}

impl Model for KeptBytes {
    ghost use Rattle.std.specs.Prelude.{ℕ, List, ◌-◌, ◌≤◌, take, drop, vec_len};

    ghost Value = { List ℕ };

    ghost view = { λ k. take (k.end - k.start) (drop k.start k.room.items) };

    ghost invariant = { λ k. (k.start ≤ k.end) × (k.end ≤ vec_len k.room) };
}

impl KeptBytes {
    /// No bytes.
    pub(crate) fn new(alloc: Global) -> KeptBytes
        ensures { result ≡ [] }
    {
        KeptBytes {
            room: Vec::new(alloc),
            start: 0,
            end: 0,
            awaited: 0,
        }
    }

    /// The bytes that weren't read yet.
    #[inline(always)]
    pub(crate) fn as_slice(&self) -> &[u8]
        ensures { result.now ≡ self.now }
    {
        &self.room[self.start..self.end]
    }

    /// How many bytes weren't read yet.
    #[inline(always)]
    pub(crate) fn len(&self) -> usize
        ensures { result ≡ length self.now }
    {
        self.end - self.start
    }

    /// Whether all were read.
    #[inline(always)]
    pub(crate) fn is_empty(&self) -> bool
        ensures { MatchBool result (self.now ≡ []) (self.now ≢ []) }
    {
        self.as_slice().is_empty()
    }

    /// The allocator of the bytes.
    #[inline(always)]
    pub(crate) fn allocator(&self) -> Global {
        *self.room.allocator()
    }

    /// Marks bytes at the front as read.
    #[inline(always)]
    pub(crate) fn skip(&mut self, count: usize)
        requires { count ≤ length self.old }
        ensures { self.new ≡ drop count self.old }
    {
        self.start += count;
    }

    /// Gives the block of so many bytes at the front away, and marks those behind it as read, up to `size` in all. A large
    /// block takes the room along, so that it isn't copied, and what is left moves into a new one.
    pub(crate) fn take_block(&mut self, count: usize, size: usize) -> Result<Block, AllocError>
        requires count { count ≤ size }
        requires size { size ≤ length self.old }
        requires allowed { count ≤ MAX_BLOCK }
        ensures block { IfOk result (λ block. block ≡ take count self.old) }
        ensures ok { OnOk result (self.new ≡ drop size self.old) }
        ensures err { OnErr result (self.new ≡ self.old) }
    {
        if count < LARGE_BLOCK {
            let block = Block::of(self.allocator(), &self.as_slice()[..count])?;
            self.skip(size);
            return Ok(block);
        }
        let left = Vec::from_slice(self.allocator(), &self.as_slice()[size..])?;
        let whole = mem::replace(self, KeptBytes::of(left));
        match whole.into_block(count) {
            Ok(block) => Ok(block),
            Err(whole) => {
                *self = whole;
                Err(AllocError)
            }
        }
    }

    /// The bytes of this room.
    fn of(room: Vec<u8>) -> KeptBytes
        ensures { result ≡ room.items }
    {
        let end = room.len();
        KeptBytes {
            room,
            start: 0,
            end,
            awaited: 0,
        }
    }

    /// The block of so many bytes at the front, with the room, in which these stand. The room isn't longer then than what came.
    fn into_block(self, count: usize) -> Result<Block, KeptBytes>
        requires within { count ≤ length self }
        requires allowed { count ≤ MAX_BLOCK }
        ensures block { IfOk result (λ block. block ≡ take count self) }
        ensures kept { IfErr result (λ kept. kept ≡ self) }
    {
        let KeptBytes {
            mut room,
            start,
            end,
            awaited,
        } = self;
        room.shrink_to_fit();
        match Block::of_room(room, start, count) {
            Ok(block) => Ok(block),
            Err(failed) => Err(KeptBytes {
                room: failed.value,
                start,
                end,
                awaited,
            }),
        }
    }

    /// A block of so many bytes is to come next, with a line end behind it.
    #[inline(always)]
    pub(crate) fn await_block(&mut self, count: usize)
        requires { count ≤ MAX_BLOCK }
        ensures { self.new ≡ self.old }
    {
        self.awaited = if count < LARGE_BLOCK { 0 } else { count + 2 };
    }

    /// Makes room for a piece of a large block, where there isn't enough: twice the room that there was, but no more than the block and
    /// what may come behind it take. Where more comes than that, nobody asks for the block, and the room is made as it is for lines.
    #[inline(always)]
    fn make_room(&mut self, count: usize) -> Result<(), AllocError>
        ensures { self.new ≡ self.old }
    {
        if self.awaited == 0 {
            return Ok(());
        }
        self.move_to_front();
        let needed = self.end.saturating_add(count);
        let most = self.awaited.saturating_add(MOST_BEHIND);
        if needed <= self.room.capacity() || most < needed {
            return Ok(());
        }
        let doubled = self.room.capacity().saturating_mul(2);
        let room = needed.max(doubled.min(most));
        self.room
            .reserve_exact(room.saturating_sub(self.room.len()))
    }

    /// Adds bytes at the end, in place of those that were read.
    #[inline(always)]
    pub(crate) fn push(&mut self, piece: &[u8]) -> Result<(), AllocError>
        ensures ok { OnOk result (self.new ≡ self.old ++ piece.now) }
        ensures err { OnErr result (self.new ≡ self.old) }
    {
        self.make_room(piece.len())?;
        self.move_to_front();
        if piece.len() <= self.room.len() - self.end {
            let end = self.end + piece.len();
            self.room[self.end..end].copy_from_slice(piece);
            self.end = end;
            return Ok(());
        }
        self.room.truncate(self.end);
        self.room.extend_from_slice(piece)?;
        self.end = self.room.len();
        Ok(())
    }

    /// Gives back the room that is above the most that is kept, unless the bytes of a large block need it.
    #[inline(always)]
    pub(crate) fn give_room_back(&mut self)
        ensures { self.new ≡ self.old }
    {
        if self.len() <= MOST_ROOM && self.room.capacity() > MOST_ROOM {
            self.move_to_front();
            self.room.truncate(self.end);
            self.room.shrink_to(MOST_ROOM);
        }
    }

    /// Gives the room of the bytes that were read to those to come.
    #[inline(always)]
    fn move_to_front(&mut self)
        ensures { self.new ≡ self.old }
    {
        if self.start > 0 {
            self.room
                .as_mut_slice()
                .copy_within(self.start..self.end, 0);
            self.end -= self.start;
            self.start = 0;
        }
    }
}
