//! Replies, out of a stream that comes in any pieces.
ghost use Rattle.std.specs.Prelude.{◌≡◌, ◌≤◌, ℕ, List, [], true, false, None, Ok};
ghost use Rattle.mr_text.specs.Replies.{NextReplyIs, ReplyBegunAfter};
ghost use Rattle.mr_text.specs.Stream.{StandsFor, Becomes, FeedIs, Holds, HoldsFew};
ghost use Rattle.mr_text.specs.steps.ReplyProgress.{IsNextReply};

use crate::error::TextError;
use crate::reading::unfinished_reply::UnfinishedReply;
use crate::reply::Reply;
use std::alloc::Global;
use std::marker::Model;

/// Reads the replies of a stream that comes in any pieces.
///
/// It keeps the bytes after the last whole line or block that it has read, how far it has looked for a line end in
/// them, and, of a reply that isn't whole, its items and what the line of the next one said: each byte is kept once,
/// each item is copied once, and nothing that was read is kept. Every refusal but want of memory closes it. After
/// OutOfMemory the same call may be made again.
#[derive(Drop)]
pub struct ReplyReader {
    reply: UnfinishedReply,
}

impl Model for ReplyReader {
    ghost use Rattle.mr_text.specs.Stream.{ReaderView};
    ghost use Rattle.mr_text.specs.steps.ReplyProgress.{IsProgress};
    ghost use Rattle.mr_text.specs.steps.StreamView.{reader_of};

    ghost Value = { ReaderView };

    ghost view = { λ r. reader_of r.reply.stream };

    ghost invariant = { λ r. IsProgress r.reply };
}

impl ReplyReader {
    /// A reader of a stream of which nothing came yet.
    pub fn new(alloc: Global) -> ReplyReader
        ensures stands { Becomes result [] false false }
        ensures begun { result.begun ≡ 0 }
    {
        ReplyReader {
            reply: UnfinishedReply::new(alloc),
        }
    }

    /// Takes the next piece of the stream. A reader that is closed, or whose input ended, answers Closed. An error
    /// takes nothing of the piece.
    #[inline(always)]
    pub fn feed(&mut self, piece: &[u8]) -> Result<(), TextError>
        ensures piece { (rest : List ℕ) → StandsFor self.old rest → FeedIs self.old self.new rest piece.now result }
        ensures begun { self.new.begun ≡ self.old.begun }
    {
        self.reply.stream.feed(piece)
    }

    /// Marks the end of the input.
    pub fn end(&mut self)
        ensures ended { (rest : List ℕ) → StandsFor self.old rest → Becomes self.new rest true self.old.closed }
        ensures begun { self.new.begun ≡ self.old.begun }
    {
        self.reply.stream.end();
    }

    /// How many bytes came after the last whole line or block that was read. It takes no memory.
    pub fn held(&self) -> usize
        ensures { Holds self.now result }
    {
        self.reply.stream.held()
    }

    /// The next reply; None where more input is needed, or all was read. The refusals come in the order of the
    /// text: in each line a long line, an unknown first word, wrong words, a bad key, a bad number, a long block, a
    /// bad end of a block; Truncated where the input ended inside a reply; want of memory where a reply is whole or,
    /// while the input goes on, an item of one.
    pub fn next(&mut self) -> Result<Option<Reply>, TextError>
        ensures answer { (rest : List ℕ) → StandsFor self.old rest → NextReplyIs self.old self.new rest result }
        ensures begun { ReplyBegunAfter self.old self.new result }
        ensures short { result ≡ Ok None → HoldsFew self.new }
    {
        self.next_reply()
    }

    #[inline(always)]
    fn next_reply(&mut self) -> Result<Option<Reply>, TextError>
        ensures { IsNextReply self.old self.new result }
    {
        if self.reply.stream.is_closed() {
            return Err(TextError::Closed);
        }
        self.reply.next()
    }
}
