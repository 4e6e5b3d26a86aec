//! A reply that is read as it comes: its items so far, and what the line of the next one said.
ghost use Rattle.std.specs.Prelude.{◌≡◌, ◌≢◌, ◌≤◌, ℕ, [], None, Some, true, false, length};
ghost use Rattle.mr_text.specs.Key.{IsKey};
ghost use Rattle.mr_text.specs.Limits.{MAX_BLOCK, MAX_ITEMS};
ghost use Rattle.mr_text.specs.declared.error.TextError.{TextError};
ghost use Rattle.mr_text.specs.steps.Reading.StretchReading.{Refused};
ghost use Rattle.mr_text.specs.steps.ReplyReading.{items_reading};
ghost use Rattle.mr_text.specs.steps.ReplyProgress.{IsProgress, IsNextReply, FirstLineIs, LineTaken, MayCopy};
ghost use Rattle.mr_text.specs.steps.ReplyProgress.{TakesStep, all_of, has_begun};
ghost use Rattle.mr_text.specs.steps.ReplySteps.{IsAhead};
ghost use Rattle.mr_text.specs.steps.StreamView.{nothing_came, reader_of, with_given};

use crate::error::TextError;
use crate::item::Item;
use crate::item_list::ItemList;
use crate::limits::MAX_ITEMS;
use crate::reading::begun_item::BegunItem;
use crate::reading::blocks::has_block;
use crate::reading::replies::{
    NextLine, first_said, items_ahead, items_behind_block, lone_reply, next_line, whole_items,
};
use crate::reading::reply_lines::SaidLine;
use crate::reading::stream::Stream;
use crate::reply::Reply;
use std::alloc::{AllocError, Global};
use std::mem;

/// What the first line of a reply comes to.
#[derive(Drop)]
pub(crate) enum FirstLine {
    /// It isn't whole.
    Waits,
    /// It is an item's, and its block is to follow.
    Item,
    /// It is a reply by itself.
    Reply(Reply),
}

/// What the next line or block behind items comes to.
#[derive(Clone, Copy)]
pub(crate) enum ReadStep {
    /// It isn't whole.
    Waits,
    /// It was read.
    More,
    /// The items end with a line of so many bytes.
    End(usize),
}

/// A stream of replies, and what was read of the reply that isn't whole.
#[derive(Drop)]
pub(crate) struct UnfinishedReply {
    pub(crate) stream: Stream,
    /// What the line said that was read last, while its block isn't whole.
    said: Option<BegunItem>,
    /// The items that are whole.
    items: Vec<Item>,
}

impl UnfinishedReply {
    /// Nothing of a reply, and a stream of which nothing came yet.
    pub(crate) fn new(alloc: Global) -> UnfinishedReply
        ensures progress { IsProgress result }
        ensures stream { result.stream ≡ nothing_came }
    {
        UnfinishedReply {
            stream: Stream::new(alloc),
            said: None,
            items: Vec::new(alloc),
        }
    }

    /// Whether a part of a reply was read.
    #[inline(always)]
    fn has_begun(&self) -> bool
        ensures { result ≡ has_begun self.now }
    {
        !self.items.is_empty() || self.said.is_some()
    }

    /// The next reply. What is there is looked over first, since that takes no memory; then it is copied.
    #[inline(always)]
    pub(crate) fn next(&mut self) -> Result<Option<Reply>, TextError>
        requires progress { IsProgress self.old }
        requires going_on { self.old.stream.closed ≡ false }
        ensures progress { IsProgress self.new }
        ensures next { IsNextReply (reader_of self.old.stream) (reader_of self.new.stream) result }
    {
        if self.has_begun() {
            return self.next_items();
        }
        if self.stream.held() == 0 {
            return self.stream.wait(false);
        }
        match self.read_first_line() {
            Ok(FirstLine::Waits) => self.stream.wait(false),
            Ok(FirstLine::Item) => self.next_items(),
            Ok(FirstLine::Reply(reply)) => Ok(Some(reply)),
            Err(refusal) => Err(refusal),
        }
    }

    /// Reads the first line of a reply, where it is whole.
    #[inline(always)]
    fn read_first_line(&mut self) -> Result<FirstLine, TextError>
        requires progress { IsProgress self.old }
        requires going_on { self.old.stream.closed ≡ false }
        requires nothing { has_begun self.old ≡ false }
        ensures { FirstLineIs self.old self.new result }
    {
        let end = self.stream.line_end();
        match first_said(self.stream.as_slice(), end) {
            Ok(None) => Ok(FirstLine::Waits),
            Err(refusal) => {
                self.stream.close();
                Err(refusal)
            }
            Ok(
                Some(
                    (
                        SaidLine::Item {
                            key,
                            flags,
                            block_length,
                        },
                        size,
                    ),
                ),
            ) => {
                let alloc = self.stream.allocator();
                let bytes = self.stream.as_slice();
                if let Some((items, length)) = whole_items(
                    alloc,
                    bytes,
                    key,
                    flags,
                    block_length,
                    size,
                ) {
                    self.stream.give(length);
                    return Ok(FirstLine::Reply(Reply::Items(items)));
                }
                keep_words(&mut self.said, key, flags, block_length);
                self.stream.read(size);
                self.stream.await_block(block_length);
                Ok(FirstLine::Item)
            }
            Ok(Some((line, size))) => {
                let Ok(reply) = lone_reply(self.stream.allocator(), line) else {
                    return Err(TextError::OutOfMemory);
                };
                self.stream.give(size);
                Ok(FirstLine::Reply(reply))
            }
        }
    }

    /// Keeps what the line of an item said, which has so many bytes, until its block is whole.
    fn begin(&mut self, said: BegunItem, size: usize)
        requires { size ≤ length self.old.stream.unread }
        ensures { LineTaken self.old self.new said size }
    {
        self.stream.read(size);
        self.stream.await_block(said.block_length());
        self.said = Some(said);
    }

    /// The reply whose first line was an item's. It stays a call, as `keep_words` does.
    #[inline(never)]
    fn next_items(&mut self) -> Result<Option<Reply>, TextError>
        requires progress { IsProgress self.old }
        requires going_on { self.old.stream.closed ≡ false }
        requires begun { has_begun self.old ≡ true }
        ensures progress { IsProgress self.new }
        ensures next { IsNextReply (reader_of self.old.stream) (reader_of self.new.stream) result }
    {
        match self.look_ahead() {
            Ok(true) => self.read_items(),
            Ok(false) => {
                if self.stream.is_ended() {
                    return self.stream.wait(true);
                }
                self.read_items()
            }
            Err(refusal) => {
                self.stream.close();
                Err(refusal)
            }
        }
    }

    /// Whether the end of the items is there. It takes no memory, and reads nothing.
    fn look_ahead(&mut self) -> Result<bool, TextError>
        requires { IsProgress self.old }
        ensures ahead { IsAhead (items_reading MAX_ITEMS (all_of self.old.stream)) result }
        ensures same { self.new ≡ self.old }
    {
        let room = MAX_ITEMS - self.items.len();
        if let Some(said) = &self.said {
            return items_behind_block(room, said.block_length(), self.stream.as_slice());
        }
        let end = self.stream.line_end();
        items_ahead(room, self.stream.as_slice(), end)
    }

    /// Copies the items that are there, and gives the reply where their end is.
    fn read_items(&mut self) -> Result<Option<Reply>, TextError>
        requires progress { IsProgress self.old }
        requires going_on { self.old.stream.closed ≡ false }
        requires begun { has_begun self.old ≡ true }
        requires readable { MayCopy self.old.stream.ended (items_reading MAX_ITEMS (all_of self.old.stream)) }
        ensures progress { IsProgress self.new }
        ensures next { IsNextReply (reader_of self.old.stream) (reader_of self.new.stream) result }
    {
        'items: loop {
            match self.read_step() {
                Ok(ReadStep::More) => {}
                Ok(ReadStep::End(size)) => return Ok(Some(Reply::Items(self.give_items(size)))),
                Ok(ReadStep::Waits) => return self.stream.wait(true),
                Err(_) => return Err(TextError::OutOfMemory),
            }
        }
    }

    /// Reads the next line or block behind the items.
    fn read_step(&mut self) -> Result<ReadStep, AllocError>
        requires progress { IsProgress self.old }
        requires readable { (refusal : TextError)
            → items_reading MAX_ITEMS (all_of self.old.stream) ≢ Refused refusal 0 }
        ensures { TakesStep self.old self.new result }
    {
        if self.said.is_some() {
            self.read_block()
        } else {
            Ok(self.read_line())
        }
    }

    /// Reads the line behind the items, where it is whole.
    fn read_line(&mut self) -> ReadStep
        requires progress { IsProgress self.old }
        requires no_line { self.old.said ≡ None }
        requires readable { (refusal : TextError)
            → items_reading MAX_ITEMS (all_of self.old.stream) ≢ Refused refusal 0 }
        ensures { TakesStep self.old self.new (Ok result) }
    {
        let room = MAX_ITEMS - self.items.len();
        let end = self.stream.line_end();
        match next_line(room, self.stream.as_slice(), end) {
            Ok(NextLine::Waits) => ReadStep::Waits,
            Ok(
                NextLine::Item {
                    key,
                    flags,
                    block_length,
                    size,
                },
            ) => {
                let said = BegunItem::of(key, flags, block_length);
                self.begin(said, size);
                ReadStep::More
            }
            Ok(NextLine::End(size)) => ReadStep::End(size),
            Err(_) => unreachable!(),
        }
    }

    /// Copies the item whose line was read, where its block is whole.
    fn read_block(&mut self) -> Result<ReadStep, AllocError>
        requires progress { IsProgress self.old }
        requires line { self.old.said ≢ None }
        requires readable { (refusal : TextError)
            → items_reading MAX_ITEMS (all_of self.old.stream) ≢ Refused refusal 0 }
        ensures { TakesStep self.old self.new result }
    {
        let Some(said) = &self.said else {
            unreachable!();
        };
        let bytes = self.stream.as_slice();
        let block_length = said.block_length();
        match has_block(block_length, bytes) {
            Ok(false) => Ok(ReadStep::Waits),
            Ok(true) => {
                self.items.reserve(1)?;
                let key = said.key(self.stream.allocator())?;
                let flags = said.flags();
                let block = self.stream.read_block(block_length)?;
                let Ok(()) = self.items.push(Item { key, flags, block }) else {
                    unreachable!();
                };
                self.said = None;
                Ok(ReadStep::More)
            }
            Err(_) => unreachable!(),
        }
    }

    /// Gives the items away, whose end has so many bytes.
    fn give_items(&mut self, size: usize) -> ItemList
        requires progress { IsProgress self.old }
        requires end { self.old.said ≡ None }
        requires within { size ≤ length self.old.stream.unread }
        ensures items { result ≡ self.old.items.items }
        ensures progress { IsProgress self.new }
        ensures stream { self.new.stream ≡ with_given size self.old.stream }
    {
        let items = mem::replace(&mut self.items, Vec::new(self.stream.allocator()));
        self.stream.give(size);
        ItemList::new(items)
    }
}

/// Keeps what the line of an item said until its block is whole. It stays a call, since the room for its words would be cleared at
/// each reply else.
#[inline(never)]
fn keep_words(said: &mut Option<BegunItem>, key: &[u8], flags: u32, block_length: usize)
    requires key { IsKey key.now }
    requires block { block_length ≤ MAX_BLOCK }
    ensures { said.new ≡ Some (record { key = key.now; flags = flags; block_length = block_length }) }
{
    *said = Some(BegunItem::of(key, flags, block_length));
}
