//! What a line of a reply says.
ghost use Rattle.std.specs.Prelude.{◌≡◌, ◌≤◌, ◌∷◌, [], ℕ, List, false, drop, length, IfOk, IfSome, MatchOption};
ghost use Rattle.std.specs.List.{list_any};
ghost use Rattle.std.specs.Str.{bytes_eq};
ghost use Rattle.mr_lines.specs.Words.{words_of, drop_spaces};
ghost use Rattle.mr_text.specs.Replies.{lone_words};
ghost use Rattle.mr_text.specs.steps.ReplyReading.{ReplyLine, first_line, next_line, item_line, item_line_within, lone_line};
ghost use Rattle.mr_text.specs.steps.ReplyReading.ReplyLine.{EndLine, LoneLine};
ghost use Rattle.mr_text.specs.steps.ReplyView.{IsReplyLine, IsGoodItem, HasOneLine, IsOneLine, reply_line_of};
ghost use Rattle.mr_text.specs.Line.{HasLineFeed};
ghost use Rattle.mr_text.specs.Limits.{MAX_LINE};

use crate::error::TextError;
use crate::key::is_key;
use crate::limits::MAX_BLOCK;
use mr_lines::{is_text, next_word, number_up_to};

/// What a line of a reply says, over the line's own bytes.
#[derive(Clone, Copy)]
pub(crate) enum SaidLine<'a> {
    /// A block of this length is to follow.
    Item {
        key: &'a [u8],
        flags: u32,
        block_length: usize,
    },
    End,
    Stored,
    Deleted,
    NotFound,
    Error,
    ClientError(&'a [u8]),
    ServerError(&'a [u8]),
}

/// What the first line of a reply says.
#[inline(always)]
#[tactic(auto, unfolding(crate::specs::steps::ReplyReading::first_line))]
pub(crate) fn first_line_of(line: &[u8]) -> Result<SaidLine<'_>, TextError>
    requires one_line { ¬ HasLineFeed line.now }
    requires not_long { length line.now ≤ MAX_LINE }
    ensures line { IsReplyLine (first_line line.now (words_of line.now)) result }
    ensures text { IfOk result HasOneLine }
{
    let Some((word, rest)) = next_word(line) else {
        return Err(TextError::UnknownCommand { closes: true });
    };
    if is_text(word, b"VALUE") {
        return item(rest);
    }
    if is_text(word, b"CLIENT_ERROR") {
        return Ok(SaidLine::ClientError(error_text(line, 12, rest)));
    }
    if is_text(word, b"SERVER_ERROR") {
        return Ok(SaidLine::ServerError(error_text(line, 12, rest)));
    }
    match lone_word(word) {
        Some(said) => alone(said, rest),
        None => Err(TextError::UnknownCommand { closes: true }),
    }
}

/// What a word says that stands alone in its line; None for any other word.
#[inline(always)]
#[tactic(auto, unfolding(crate::specs::steps::ReplyReading::first_line))]
fn lone_word<'a>(word: &[u8]) -> Option<SaidLine<'a>>
    ensures line { MatchOption result (list_any (bytes_eq word.now) lone_words ≡ false)
        (λ said. (line : List ℕ) → (words : List (List ℕ)) → first_line line (word.now ∷ words) ≡ lone_line (reply_line_of said) words) }
    ensures text { IfSome result HasOneLine }
{
    if is_text(word, b"STORED") {
        return Some(SaidLine::Stored);
    }
    if is_text(word, b"DELETED") {
        return Some(SaidLine::Deleted);
    }
    if is_text(word, b"NOT_FOUND") {
        return Some(SaidLine::NotFound);
    }
    if is_text(word, b"ERROR") {
        return Some(SaidLine::Error);
    }
    if is_text(word, b"END") {
        return Some(SaidLine::End);
    }
    None
}

/// What a line behind an item says, with room for so many more items.
#[inline(always)]
pub(crate) fn next_line_of(room: usize, line: &[u8]) -> Result<SaidLine<'_>, TextError>
    ensures line { IsReplyLine (next_line room (words_of line.now)) result }
    ensures good { IfOk result (IsGoodItem room) }
{
    next_said(room, line)
}

#[inline(always)]
#[tactic(auto, unfolding(crate::specs::steps::ReplyReading::next_line))]
fn next_said(room: usize, line: &[u8]) -> Result<SaidLine<'_>, TextError>
    ensures { IsReplyLine (next_line room (words_of line.now)) result }
{
    let Some((word, rest)) = next_word(line) else {
        return Err(TextError::WrongWords);
    };
    if is_text(word, b"END") {
        return alone(SaidLine::End, rest);
    }
    if is_text(word, b"VALUE") {
        return item_within(room, rest);
    }
    Err(TextError::WrongWords)
}

/// The text of an error: what follows its word and one space, in a line of so many bytes.
fn error_text<'a>(line: &[u8], word_length: usize, rest: &'a [u8]) -> &'a [u8]
    requires word { 12 ≤ word_length }
    requires behind { rest.now ≡ drop word_length (drop_spaces line.now) }
    requires one_line { ¬ HasLineFeed line.now }
    requires not_long { length line.now ≤ MAX_LINE }
    ensures text { result.now ≡ drop 1 rest.now }
    ensures one_line { IsOneLine result.now }
{
    match rest {
        [_, text @ ..] => text,
        [] => rest,
    }
}

/// A line whose word stands alone.
#[inline(always)]
fn alone<'a>(line: SaidLine<'a>, rest: &[u8]) -> Result<SaidLine<'a>, TextError>
    ensures line { IsReplyLine (lone_line (reply_line_of line.entry) (words_of rest.now)) result }
    ensures same { IfOk result (λ said. said ≡ line.entry) }
{
    if next_word(rest).is_some() {
        return Err(TextError::WrongWords);
    }
    Ok(line)
}

#[inline(always)]
fn item_within(room: usize, words: &[u8]) -> Result<SaidLine<'_>, TextError>
    ensures { IsReplyLine (item_line_within room (words_of words.now)) result }
{
    if room == 0 {
        return Err(TextError::WrongWords);
    }
    item(words)
}

/// The words behind VALUE.
#[inline(always)]
fn item(words: &[u8]) -> Result<SaidLine<'_>, TextError>
    ensures line { IsReplyLine (item_line (words_of words.now)) result }
    ensures text { IfOk result HasOneLine }
{
    let Some((key, rest)) = next_word(words) else {
        return Err(TextError::WrongWords);
    };
    let Some((flags, rest)) = next_word(rest) else {
        return Err(TextError::WrongWords);
    };
    let Some((bytes, rest)) = next_word(rest) else {
        return Err(TextError::WrongWords);
    };
    if next_word(rest).is_some() {
        return Err(TextError::WrongWords);
    }
    item_of(key, flags, bytes)
}

/// The item of these words.
#[inline(always)]
fn item_of<'a>(key: &'a [u8], flags: &[u8], bytes: &[u8]) -> Result<SaidLine<'a>, TextError>
    ensures line { IsReplyLine (item_line (key.entry.now ∷ flags.now ∷ bytes.now ∷ [])) result }
    ensures text { IfOk result HasOneLine }
{
    if !is_key(key) {
        return Err(TextError::BadKey);
    }
    let Some(flags) = number_up_to(u64::from(u32::MAX), flags) else {
        return Err(TextError::BadNumber);
    };
    let Some(block_length) = number_up_to(u64::MAX, bytes) else {
        return Err(TextError::BadNumber);
    };
    if block_length > MAX_BLOCK as u64 {
        return Err(TextError::DataTooLong);
    }
    Ok(SaidLine::Item {
        key,
        flags: flags as u32,
        block_length: block_length as usize,
    })
}
