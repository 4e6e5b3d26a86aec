//! The request at the front of some bytes: found over the bytes, and then copied out.
ghost use Rattle.std.specs.Prelude.{◌≡◌, ◌≤◌, ◌<◌, length, IfOk, IfSome};
ghost use Rattle.mr_lines.specs.Lines.{byte_place};
ghost use Rattle.mr_lines.specs.Words.{words_of};
ghost use Rattle.mr_text.specs.Limits.{MAX_LINE};
ghost use Rattle.mr_text.specs.steps.Reading.{line_reading};
ghost use Rattle.mr_text.specs.steps.Reading.StretchReading.{Gives};
ghost use Rattle.mr_text.specs.steps.RequestView.{FindsRequest, IsWholeRequest, said_request};
ghost use Rattle.mr_text.specs.steps.CommandView.{AreKeys};

use crate::block::Block;
use crate::error::TextError;
use crate::key::Key;
use crate::key_list::KeyList;
use crate::reading::blocks::has_block;
use crate::reading::commands::{Command, command_of};
use crate::reading::lines::line_to;
use crate::request::Request;
use mr_lines::next_word;
use std::alloc::{AllocError, Global};

/// A whole request at the front of some bytes, over these bytes.
#[derive(Clone, Copy)]
pub(crate) struct FoundRequest<'a> {
    pub(crate) command: Command<'a>,
    /// The block of a set.
    pub(crate) block: &'a [u8],
    /// How many bytes spell the request.
    pub(crate) length: usize,
}

/// What is found of a request at the front of some bytes, over these bytes.
#[derive(Clone, Copy)]
pub(crate) enum Found<'a> {
    /// No line is whole.
    Nothing,
    /// The line of a set, of so many bytes with its end, whose block isn't whole.
    Begun {
        key: &'a [u8],
        flags: u32,
        exptime: i64,
        block_length: usize,
        noreply: bool,
        line_length: usize,
    },
    Whole(FoundRequest<'a>),
}

/// A refusal, and the length of the line that reading goes on behind, where it does.
#[derive(Clone, Copy)]
pub(crate) struct RefusedText {
    pub(crate) refusal: TextError,
    pub(crate) length: usize,
}

/// What is at the front of the bytes, whose first line ends here or nowhere.
#[inline(always)]
#[tactic(auto, unfolding(crate::specs::steps::Reading::request_reading))]
pub(crate) fn request_at(bytes: &[u8], line_end: Option<usize>) -> Result<Found<'_>, RefusedText>
    requires end { line_end ≡ byte_place 10 bytes.now }
    requires within { IfSome line_end (λ place. place < length bytes.now) }
    ensures { FindsRequest bytes.now result }
{
    match line_to(bytes, line_end) {
        Ok(Some((line, length))) => request_of_line(bytes, line, length),
        Ok(None) => Ok(Found::Nothing),
        Err(refusal) => Err(RefusedText { refusal, length: 0 }),
    }
}

/// The same where this line, the first of the bytes, was read.
#[inline(always)]
#[tactic(auto, unfolding(crate::specs::steps::Reading::request_reading))]
fn request_of_line<'a>(
    bytes: &'a [u8],
    line: &'a [u8],
    line_length: usize,
) -> Result<Found<'a>, RefusedText>
    requires line { line_reading bytes.now ≡ Gives line.now line_length }
    requires within { line_length ≤ length bytes.now }
    requires not_long { length line.now ≤ MAX_LINE }
    ensures { FindsRequest bytes.entry.now result }
{
    let command = match command_of(line) {
        Ok(command) => command,
        Err(refusal) => {
            return Err(RefusedText {
                refusal,
                length: line_length,
            });
        }
    };
    let Command::Set {
        key,
        flags,
        exptime,
        block_length,
        noreply,
    } = command
    else {
        return Ok(Found::Whole(FoundRequest {
            command,
            block: &[],
            length: line_length,
        }));
    };
    let behind = &bytes[line_length..];
    match has_block(block_length, behind) {
        Ok(true) => Ok(Found::Whole(FoundRequest {
            command,
            block: &behind[..block_length],
            length: line_length + block_length + 2,
        })),
        Ok(false) => Ok(Found::Begun {
            key,
            flags,
            exptime,
            block_length,
            noreply,
            line_length,
        }),
        Err(refusal) => Err(RefusedText { refusal, length: 0 }),
    }
}

/// The request that was found, with bytes of its own.
#[inline(always)]
pub(crate) fn request_of(alloc: Global, found: &FoundRequest<'_>) -> Result<Request, AllocError>
    requires { IsWholeRequest found.now }
    ensures { IfOk result (λ request. request ≡ said_request found.now) }
{
    Ok(match &found.command {
        Command::Get { keys, count } => Request::Get {
            keys: keys_of(alloc, keys, *count)?,
        },
        Command::Set {
            key,
            flags,
            exptime,
            block_length: _,
            noreply,
        } => Request::Set {
            key: Key::of(alloc, key)?,
            flags: *flags,
            exptime: *exptime,
            block: Block::of(alloc, found.block)?,
            noreply: *noreply,
        },
        Command::Delete { key, noreply } => Request::Delete {
            key: Key::of(alloc, key)?,
            noreply: *noreply,
        },
        Command::Quit => Request::Quit,
    })
}

/// The words as keys.
#[inline(always)]
fn keys_of(alloc: Global, words: &[u8], count: usize) -> Result<KeyList, AllocError>
    requires { AreKeys (words_of words.now) count }
    ensures { IfOk result (λ keys. keys ≡ words_of words.now) }
{
    let mut keys = Vec::with_capacity(alloc, count)?;
    let mut rest = words;
    while let Some((word, after)) = next_word(rest) {
        keys.push(Key::of(alloc, word)?)?;
        rest = after;
    }
    Ok(KeyList::of(keys))
}
