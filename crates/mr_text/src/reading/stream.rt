//! What a reader keeps of its stream, whatever is spelled in it.
ghost use Rattle.std.specs.Prelude.{◌≡◌, ◌≢◌, ◌+◌, ◌≤◌, ◌<◌, ◌++◌, [], true, None, IfSome, IfOk, OnOk, OnErr, MatchBool, length, take, drop};
ghost use Rattle.mr_lines.specs.Lines.{byte_place};
ghost use Rattle.mr_text.specs.Limits.{MAX_BLOCK};
ghost use Rattle.mr_text.specs.steps.StreamView.{TakesPiece, StreamWaits, nothing_came, with_read, with_given};

use crate::block::Block;
use crate::error::TextError;
use crate::reading::kept::KeptBytes;
use crate::reading::spelled::SpelledBytes;
use mr_lines::place_of_byte;
use std::alloc::{AllocError, Global};
use std::marker::Model;

/// The bytes that came and weren't read, how far they were looked over, whether the input ended, and whether reading
/// is over.
#[derive(Drop)]
pub(crate) struct Stream {
    /// What was read of an unfinished text, which contracts alone see.
    front: SpelledBytes,
    unread: KeptBytes,
    /// So many bytes of the unread ones were looked over, and no line ends among them.
    scanned: usize,
    ended: bool,
    closed: bool,
}

impl Model for Stream {
    ghost use Rattle.mr_text.specs.steps.StreamView.{StreamView, IsScanned};

    ghost Value = { StreamView };

    ghost view = { λ s. record { front = s.front; unread = s.unread; ended = s.ended; closed = s.closed } };

    ghost invariant = { λ s. IsScanned s.unread s.scanned };
}

impl Stream {
    /// A stream of which nothing came yet.
    pub(crate) fn new(alloc: Global) -> Stream
        ensures { result ≡ nothing_came }
    {
        Stream {
            front: SpelledBytes::new(),
            unread: KeptBytes::new(alloc),
            scanned: 0,
            ended: false,
            closed: false,
        }
    }

    /// Takes the next piece. Where reading is over, or the input ended, it answers Closed. An error takes nothing of
    /// the piece.
    #[inline(always)]
    pub(crate) fn feed(&mut self, piece: &[u8]) -> Result<(), TextError>
        ensures { TakesPiece self.old self.new piece.now result }
    {
        if self.closed || self.ended {
            return Err(TextError::Closed);
        }
        self.unread.push(piece)?;
        Ok(())
    }

    /// Marks the end of the input.
    pub(crate) fn end(&mut self)
        ensures { self.new ≡ record self.old { ended = true } }
    {
        self.ended = true;
    }

    /// Whether reading is over.
    #[inline(always)]
    pub(crate) fn is_closed(&self) -> bool
        ensures { result ≡ self.now.closed }
    {
        self.closed
    }

    /// Whether the input ended.
    #[inline(always)]
    pub(crate) fn is_ended(&self) -> bool
        ensures { result ≡ self.now.ended }
    {
        self.ended
    }

    /// Reading is over.
    #[inline(always)]
    pub(crate) fn close(&mut self)
        ensures { self.new ≡ record self.old { closed = true } }
    {
        self.closed = true;
    }

    /// How many bytes weren't read yet.
    #[inline(always)]
    pub(crate) fn held(&self) -> usize
        ensures { result ≡ length self.now.unread }
    {
        self.unread.len()
    }

    /// The bytes that weren't read yet.
    #[inline(always)]
    pub(crate) fn as_slice(&self) -> &[u8]
        ensures { result.now ≡ self.now.unread }
    {
        self.unread.as_slice()
    }

    /// The allocator of the bytes.
    #[inline(always)]
    pub(crate) fn allocator(&self) -> Global {
        self.unread.allocator()
    }

    /// Where the first line ends among the bytes that weren't read. Each byte is looked at once, however often this is
    /// called.
    #[inline(always)]
    pub(crate) fn line_end(&mut self) -> Option<usize>
        ensures place { result ≡ byte_place 10 self.old.unread }
        ensures within { IfSome result (λ place. place < length self.old.unread) }
        ensures same { self.new ≡ self.old }
    {
        let found = line_end_from(self.unread.as_slice(), self.scanned);
        self.scanned = found.unwrap_or(self.unread.len());
        found
    }

    /// So many bytes more of an unfinished text were read: a line, or a block.
    #[inline(always)]
    pub(crate) fn read(&mut self, count: usize)
        requires { count ≤ length self.old.unread }
        ensures { self.new ≡ with_read count self.old }
    {
        self.front = self.front.and(&self.unread, count);
        self.skip(count);
    }

    /// The block of so many bytes that comes next, of an unfinished text. It was read then, with the line end behind it.
    pub(crate) fn read_block(&mut self, count: usize) -> Result<Block, AllocError>
        requires within { count + 2 ≤ length self.old.unread }
        requires allowed { count ≤ MAX_BLOCK }
        ensures block { IfOk result (λ block. block ≡ take count self.old.unread) }
        ensures read { OnOk result (self.new ≡ with_read (count + 2) self.old) }
        ensures same { OnErr result (self.new ≡ self.old) }
    {
        let front = self.front.and(&self.unread, count + 2);
        let block = self.unread.take_block(count, count + 2)?;
        self.front = front;
        self.scanned = 0;
        Ok(block)
    }

    /// A block of so many bytes is to come next, with a line end behind it.
    pub(crate) fn await_block(&mut self, count: usize)
        requires { count ≤ MAX_BLOCK }
        ensures { self.new ≡ self.old }
    {
        self.unread.await_block(count);
    }

    /// A text was given that ends behind so many bytes.
    #[inline(always)]
    pub(crate) fn give(&mut self, count: usize)
        requires { count ≤ length self.old.unread }
        ensures { self.new ≡ with_given count self.old }
    {
        self.front = SpelledBytes::new();
        self.skip(count);
    }

    /// Goes on behind so many bytes, of which what follows wasn't looked over.
    #[inline(always)]
    fn skip(&mut self, count: usize)
        requires { count ≤ length self.old.unread }
        ensures { self.new ≡ record self.old { unread = drop count self.old.unread } }
    {
        self.unread.skip(count);
        self.scanned = 0;
    }

    /// Nothing is whole: what is left waits for more. Where the input ended inside a text, of which something was read
    /// already (`begun`) or not, that is Truncated, and reading is over.
    #[inline(always)]
    pub(crate) fn wait<Item>(&mut self, begun: bool) -> Result<Option<Item>, TextError>
        requires { MatchBool begun (self.old.front ≢ []) (self.old.front ≡ []) }
        ensures { StreamWaits self.old self.new result }
    {
        if self.ended && self.is_inside_text(begun) {
            self.close();
            return Err(TextError::Truncated);
        }
        self.unread.give_room_back();
        Ok(None)
    }

    /// Whether something of a text came.
    #[inline(always)]
    fn is_inside_text(&self, begun: bool) -> bool
        requires { MatchBool begun (self.now.front ≢ []) (self.now.front ≡ []) }
        ensures { MatchBool result (self.now.front ++ self.now.unread ≢ []) (self.now.front ++ self.now.unread ≡ []) }
    {
        begun || !self.unread.is_empty()
    }
}

/// Where the first line ends, where none ends before this place.
#[inline(always)]
fn line_end_from(bytes: &[u8], from: usize) -> Option<usize>
    requires within { from ≤ length bytes.now }
    requires none { byte_place 10 (take from bytes.now) ≡ None }
    ensures place { result ≡ byte_place 10 bytes.now }
    ensures within { IfSome result (λ place. place < length bytes.now) }
{
    match place_of_byte(b'\n', &bytes[from..]) {
        Some(place) => Some(from + place),
        None => None,
    }
}
