//! What stands in bytes that weren't read yet of a reply: found over the bytes themselves, without taking memory.
ghost use Rattle.std.specs.Prelude.{◌≡◌, ◌≤◌, ◌<◌, ◌++◌, ◌^◌, ◌+◌, ℕ, List, [], ◌∷◌, Some, drop, take, length, IfOk, IfSome};
ghost use Rattle.mr_lines.specs.Lines.{byte_place};
ghost use Rattle.mr_text.specs.Replies.{cause_of, IsItemLine};
ghost use Rattle.mr_text.specs.steps.Reading.StretchReading.{Gives};
ghost use Rattle.mr_text.specs.steps.ReplyReading.{items_reading, reply_reading, step_reading};
ghost use Rattle.mr_text.specs.steps.ReplyReading.Step.{ItemStep};
ghost use Rattle.mr_text.specs.steps.ReplySteps.{IsFirstSaid, IsNextLine, IsStepAhead, IsAhead, lone_reply};
ghost use Rattle.mr_text.specs.steps.ReplyView.{HasOneLine, IsOneLine};
ghost use Rattle.mr_text.specs.Limits.{MAX_BLOCK, MAX_ITEMS};
ghost use Rattle.mr_text.specs.declared.reply.Reply.{Reply};
ghost use Rattle.mr_text.specs.declared.reply.Reply.TheVariants.{Items};

use crate::block::Block;
use crate::cause::Cause;
use crate::cause_text::named_cause;
use crate::error::TextError;
use crate::item::Item;
use crate::item_list::ItemList;
use crate::key::Key;
use crate::limits::{LARGE_BLOCK, MAX_ITEMS};
use crate::line::Line;
use crate::reading::blocks::has_block;
use crate::reading::lines::line_to;
use crate::reading::reply_lines::{SaidLine, first_line_of, next_line_of};
use crate::reply::Reply;
use mr_lines::place_of_byte;
use std::alloc::{AllocError, Global};
use std::mem;

/// What the next line behind items comes to, over the line's own bytes, with its own length.
#[derive(Clone, Copy)]
pub(crate) enum NextLine<'a> {
    /// It isn't whole.
    Waits,
    /// It is an item's, whose block is to follow.
    Item {
        key: &'a [u8],
        flags: u32,
        block_length: usize,
        size: usize,
    },
    /// The items end with it.
    End(usize),
}

/// What comes next of the items of a reply.
#[derive(Clone, Copy)]
pub(crate) enum StepAhead {
    /// More bytes are needed.
    Waits,
    /// An item of so many bytes.
    Item(usize),
    End,
}

/// What the first line of a reply says, which ends at this place, and how many bytes it has; None where its end isn't
/// there.
#[inline(always)]
#[tactic(auto, unfolding(crate::specs::steps::ReplyReading::reply_reading))]
pub(crate) fn first_said(
    bytes: &[u8],
    end: Option<usize>,
) -> Result<Option<(SaidLine<'_>, usize)>, TextError>
    requires end { end ≡ byte_place 10 bytes.now }
    requires within { IfSome end (λ place. place < length bytes.now) }
    ensures { IsFirstSaid bytes.now result }
{
    let Some((line, size)) = line_to(bytes, end)? else {
        return Ok(None);
    };
    let said = first_line_of(line)?;
    Ok(Some((said, size)))
}

/// The line behind items that ends at this place, with room for so many more.
#[inline(always)]
#[tactic(auto, unfolding(crate::specs::steps::ReplyReading::step_reading))]
pub(crate) fn next_line(
    room: usize,
    bytes: &[u8],
    end: Option<usize>,
) -> Result<NextLine<'_>, TextError>
    requires end { end ≡ byte_place 10 bytes.now }
    requires within { IfSome end (λ place. place < length bytes.now) }
    ensures { IsNextLine room bytes.now result }
{
    let Some((line, size)) = line_to(bytes, end)? else {
        return Ok(NextLine::Waits);
    };
    match next_line_of(room, line)? {
        SaidLine::Item {
            key,
            flags,
            block_length,
        } => Ok(NextLine::Item {
            key,
            flags,
            block_length,
            size,
        }),
        SaidLine::End => Ok(NextLine::End(size)),
        _ => Err(TextError::WrongWords),
    }
}

/// The next item, or the end of the items, with room for so many more.
fn step_ahead(room: usize, bytes: &[u8], end: Option<usize>) -> Result<StepAhead, TextError>
    requires end { end ≡ byte_place 10 bytes.now }
    requires within { IfSome end (λ place. place < length bytes.now) }
    ensures { IsStepAhead room bytes.now result }
{
    match next_line(room, bytes, end) {
        Ok(
            NextLine::Item {
                block_length,
                size,
                ..
            },
        ) => block_ahead(bytes, size, block_length),
        Ok(NextLine::End(_)) => Ok(StepAhead::End),
        Ok(NextLine::Waits) => Ok(StepAhead::Waits),
        Err(refusal) => Err(refusal),
    }
}

/// The same where the bytes begin with an item's line, which has so many bytes.
fn block_ahead(bytes: &[u8], size: usize, block_length: usize) -> Result<StepAhead, TextError>
    requires line { size ≤ length bytes.now }
    requires block { block_length ≤ MAX_BLOCK }
    ensures { (room : ℕ) → (key : List ℕ) → (flags : ℕ) → 0 < room
        → IsItemLine (take size bytes.now) key flags block_length → IsStepAhead room bytes.now result }
{
    match has_block(block_length, &bytes[size..]) {
        Ok(true) => Ok(StepAhead::Item(size + block_length + 2)),
        Ok(false) => Ok(StepAhead::Waits),
        Err(refusal) => Err(refusal),
    }
}

/// The same behind the bytes that were looked over.
fn step_from(
    room: usize,
    bytes: &[u8],
    read: usize,
    end: Option<usize>,
) -> Result<StepAhead, TextError>
    requires within { read ≤ length bytes.now }
    requires end { end ≡ byte_place 10 (drop read bytes.now) }
    requires end_within { IfSome end (λ place. place < length (drop read bytes.now)) }
    ensures { IsStepAhead room (drop read bytes.now) result }
{
    step_ahead(room, &bytes[read..], end)
}

/// Where the next line ends behind the bytes that were looked over.
fn end_from(bytes: &[u8], read: usize) -> Option<usize>
    requires { read ≤ length bytes.now }
    ensures place { result ≡ byte_place 10 (drop read bytes.now) }
    ensures within { IfSome result (λ place. place < length (drop read bytes.now)) }
{
    place_of_byte(b'\n', &bytes[read..])
}

/// Whether the end of the items is there, with room for so many. The first line ends at this place.
pub(crate) fn items_ahead(room: usize, bytes: &[u8], end: Option<usize>) -> Result<bool, TextError>
    requires end { end ≡ byte_place 10 bytes.now }
    requires within { IfSome end (λ place. place < length bytes.now) }
    ensures { IsAhead (items_reading room bytes.now) result }
{
    let mut left = room;
    let mut read = 0;
    let mut end = end;
    'items: loop {
        match step_from(left, bytes, read, end) {
            Ok(StepAhead::Item(size)) => {
                read += size;
                left -= 1;
                end = end_from(bytes, read);
            }
            Ok(StepAhead::End) => return Ok(true),
            Ok(StepAhead::Waits) => return Ok(false),
            Err(refusal) => return Err(refusal),
        }
    }
}

/// The same where the line of the first item was read, whose block comes first of these bytes.
pub(crate) fn items_behind_block(
    room: usize,
    block_length: usize,
    bytes: &[u8],
) -> Result<bool, TextError>
    requires room { 0 < room }
    requires block { block_length ≤ MAX_BLOCK }
    ensures { (line : List ℕ) → (key : List ℕ) → (flags : ℕ) → IsItemLine line key flags block_length
        → IsAhead (items_reading room (line ++ bytes.now)) result }
{
    match has_block(block_length, bytes) {
        Ok(true) => items_from(room - 1, bytes, block_length + 2),
        Ok(false) => Ok(false),
        Err(refusal) => Err(refusal),
    }
}

/// Whether the end of the items is there behind so many bytes.
fn items_from(room: usize, bytes: &[u8], read: usize) -> Result<bool, TextError>
    requires { read ≤ length bytes.now }
    ensures { IsAhead (items_reading room (drop read bytes.now)) result }
{
    let rest = &bytes[read..];
    items_ahead(room, rest, place_of_byte(b'\n', rest))
}

/// The item that comes first, whose line has so many bytes. None where its block isn't whole or is a large one, and for want of
/// memory.
#[inline(always)]
fn small_item(
    alloc: Global,
    bytes: &[u8],
    key: &[u8],
    flags: u32,
    block_length: usize,
    size: usize,
) -> Option<Item>
    requires line { IsItemLine (take size bytes.now) key.now flags block_length }
    requires allowed { block_length ≤ MAX_BLOCK }
    requires within { size ≤ length bytes.now }
    ensures item { (room : ℕ) → 0 < room → IfSome result (λ item. step_reading room bytes.now ≡ Gives (ItemStep item) (size + block_length + 2)) }
    ensures within { IfSome result (λ item. size + block_length + 2 ≤ length bytes.now) }
{
    if block_length >= LARGE_BLOCK {
        return None;
    }
    let behind = &bytes[size..];
    let Ok(true) = has_block(block_length, behind) else {
        return None;
    };
    let (Ok(key), Ok(block)) = (
        Key::of(alloc, key),
        Block::of(alloc, &behind[..block_length]),
    ) else {
        return None;
    };
    Some(Item { key, flags, block })
}

/// The list of items and of one behind them. None for want of memory.
#[inline(always)]
fn list_with(items: Vec<Item>, last: Item) -> Option<ItemList>
    requires { length items.items < MAX_ITEMS }
    ensures { IfSome result (λ list. list ≡ items.items ++ last ∷ []) }
{
    if items.is_empty() {
        return Some(ItemList::one(last));
    }
    let mut items = items;
    let Ok(()) = items.push(last) else {
        return None;
    };
    Some(ItemList::new(items))
}

/// The items of the reply that comes first, and how many bytes spell it; its first line, of so many bytes, is an item's. None where
/// it isn't whole or has a fault, where a block is a large one, and for want of memory.
pub(crate) fn whole_items(
    alloc: Global,
    bytes: &[u8],
    key: &[u8],
    flags: u32,
    block_length: usize,
    size: usize,
) -> Option<(ItemList, usize)>
    requires line { IsItemLine (take size bytes.now) key.now flags block_length }
    requires allowed { block_length ≤ MAX_BLOCK }
    requires within { size ≤ length bytes.now }
    ensures reply { IfSome result (λ found. reply_reading bytes.now ≡ Gives (Items found.0) found.1) }
    ensures within { IfSome result (λ found. found.1 ≤ length bytes.now) }
{
    let Some(first) = small_item(alloc, bytes, key, flags, block_length, size) else {
        return None;
    };
    let mut items = Vec::new(alloc);
    let mut last = first;
    let mut read = size + block_length + 2;
    'whole: loop {
        let rest = &bytes[read..];
        match next_line(
            MAX_ITEMS - 1 - items.len(),
            rest,
            place_of_byte(b'\n', rest),
        ) {
            Ok(
                NextLine::Item {
                    key,
                    flags,
                    block_length,
                    size,
                },
            ) => {
                let Some(item) = small_item(alloc, rest, key, flags, block_length, size) else {
                    return None;
                };
                let Ok(()) = items.push(mem::replace(&mut last, item)) else {
                    return None;
                };
                read += size + block_length + 2;
            }
            Ok(NextLine::End(end)) => {
                let Some(list) = list_with(items, last) else {
                    return None;
                };
                return Some((list, read + end));
            }
            _ => return None,
        }
    }
}

/// The reply that a line says by itself.
#[inline(always)]
pub(crate) fn lone_reply(alloc: Global, line: SaidLine<'_>) -> Result<Reply, AllocError>
    requires text { HasOneLine line }
    requires lone { (reply : Reply) × (lone_reply line ≡ Some reply) }
    ensures reply { IfOk result (λ reply. lone_reply line.entry ≡ Some reply) }
    ensures lone { (reply : Reply) × (lone_reply line.entry ≡ Some reply) }
{
    Ok(match line {
        SaidLine::Stored => Reply::Stored,
        SaidLine::Deleted => Reply::Deleted,
        SaidLine::NotFound => Reply::NotFound,
        SaidLine::Error => Reply::Error,
        SaidLine::ClientError(text) => Reply::ClientError(cause_of(alloc, text)?),
        SaidLine::ServerError(text) => Reply::ServerError(cause_of(alloc, text)?),
        SaidLine::End => Reply::Items(ItemList::new(Vec::new(alloc))),
        SaidLine::Item { .. } => unreachable!(),
    })
}

/// The cause that a text tells.
fn cause_of(alloc: Global, text: &[u8]) -> Result<Cause, AllocError>
    requires { IsOneLine text.now }
    ensures { IfOk result (λ cause. cause ≡ cause_of text.now) }
{
    if let Some(cause) = named_cause(text) {
        return Ok(cause);
    }
    Ok(Cause::Other(Line::of(alloc, text)?))
}
