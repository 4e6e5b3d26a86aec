//! What the line of a request says.
ghost use Rattle.std.specs.Prelude.{◌≡◌, ◌≤◌, ◌∷◌, length, IfOk};
ghost use Rattle.std.specs.List.{list_any};
ghost use Rattle.std.specs.Str.{bytes_eq};
ghost use Rattle.mr_lines.specs.Words.{words_of};
ghost use Rattle.mr_text.specs.Commands.{block_command_words};
ghost use Rattle.mr_text.specs.Commands.Shape.{SetShape};
ghost use Rattle.mr_text.specs.steps.Reading.{command_line, line_of, line_of_shape, get_shape, set_shape, delete_shape, quit_shape, noreply_of, without_zero};
ghost use Rattle.mr_text.specs.steps.CommandView.{IsCommand, IsGoodLine};
ghost use Rattle.mr_text.specs.Limits.{MAX_LINE};

use crate::error::TextError;
use crate::key::is_key;
use crate::limits::MAX_BLOCK;
use mr_lines::{is_text, next_word, number_up_to, signed_number};

/// What the line of a request says, over the line's own bytes.
#[derive(Clone, Copy)]
pub(crate) enum Command<'a> {
    /// So many keys, with spaces between them.
    Get {
        keys: &'a [u8],
        count: usize,
    },
    /// A block of this length is to follow.
    Set {
        key: &'a [u8],
        flags: u32,
        exptime: i64,
        block_length: usize,
        noreply: bool,
    },
    Delete {
        key: &'a [u8],
        noreply: bool,
    },
    Quit,
}

/// What the line of a request says, no longer than a line may be.
#[inline(always)]
pub(crate) fn command_of(line: &[u8]) -> Result<Command<'_>, TextError>
    requires { length line.now ≤ MAX_LINE }
    ensures command { IsCommand (command_line (words_of line.now)) result }
    ensures good { IfOk result IsGoodLine }
{
    read_command(line)
}

#[inline(always)]
#[tactic(auto, unfolding(crate::specs::steps::Reading::shape_of))]
fn read_command(line: &[u8]) -> Result<Command<'_>, TextError>
    ensures { IsCommand (command_line (words_of line.now)) result }
{
    match next_word(line) {
        Some((word, arguments)) => command_behind(word, arguments),
        None => Err(TextError::UnknownCommand { closes: false }),
    }
}

/// What a line says that begins with this word.
#[inline(always)]
#[tactic(auto, unfolding(crate::specs::steps::Reading::shape_of))]
fn command_behind<'a>(word: &[u8], arguments: &'a [u8]) -> Result<Command<'a>, TextError>
    ensures { IsCommand (command_line (word.now ∷ words_of arguments.entry.now)) result }
{
    if is_text(word, b"get") {
        return get(arguments);
    }
    if is_text(word, b"set") {
        return set(arguments);
    }
    if is_text(word, b"delete") {
        return delete(arguments);
    }
    if is_text(word, b"quit") {
        return quit(arguments);
    }
    Err(TextError::UnknownCommand {
        closes: is_followed_by_block(word),
    })
}

/// Whether a block follows the line of this command, which isn't served.
fn is_followed_by_block(word: &[u8]) -> bool
    ensures { result ≡ list_any (bytes_eq word.now) block_command_words }
{
    is_text(word, b"add")
        || is_text(word, b"replace")
        || is_text(word, b"append")
        || is_text(word, b"prepend")
        || is_text(word, b"cas")
}

#[inline(always)]
fn get(arguments: &[u8]) -> Result<Command<'_>, TextError>
    ensures { IsCommand (line_of_shape (get_shape (words_of arguments.now))) result }
{
    let mut count = 0;
    let mut rest = arguments;
    while let Some((key, after)) = next_word(rest) {
        if !is_key(key) {
            return Err(TextError::BadKey);
        }
        count += 1;
        rest = after;
    }
    if count == 0 {
        return Err(TextError::WrongWords);
    }
    Ok(Command::Get {
        keys: arguments,
        count,
    })
}

#[inline(always)]
fn set(arguments: &[u8]) -> Result<Command<'_>, TextError>
    ensures { IsCommand (line_of_shape (set_shape (words_of arguments.now))) result }
{
    let Some((key, rest)) = next_word(arguments) else {
        return Err(TextError::WrongWords);
    };
    let Some((flags, rest)) = next_word(rest) else {
        return Err(TextError::WrongWords);
    };
    let Some((exptime, rest)) = next_word(rest) else {
        return Err(TextError::WrongWords);
    };
    let Some((bytes, options)) = next_word(rest) else {
        return Err(TextError::WrongWords);
    };
    match noreply(options) {
        Some(noreply) => set_of(key, flags, exptime, bytes, noreply),
        None => Err(TextError::WrongWords),
    }
}

/// The set of these words.
#[inline(always)]
fn set_of<'a>(
    key: &'a [u8],
    flags: &[u8],
    exptime: &[u8],
    bytes: &[u8],
    noreply: bool,
) -> Result<Command<'a>, TextError>
    ensures { IsCommand (line_of (SetShape key.entry.now flags.now exptime.now bytes.now noreply)) result }
{
    if !is_key(key) {
        return Err(TextError::BadKey);
    }
    let Some(flags) = number_up_to(u64::from(u32::MAX), flags) else {
        return Err(TextError::BadNumber);
    };
    let Some(exptime) = signed_number(exptime) else {
        return Err(TextError::BadNumber);
    };
    let Some(block_length) = number_up_to(u64::MAX, bytes) else {
        return Err(TextError::BadNumber);
    };
    if block_length > MAX_BLOCK as u64 {
        return Err(TextError::DataTooLong);
    }
    Ok(Command::Set {
        key,
        flags: flags as u32,
        exptime,
        block_length: block_length as usize,
        noreply,
    })
}

fn delete(arguments: &[u8]) -> Result<Command<'_>, TextError>
    ensures { IsCommand (line_of_shape (delete_shape (words_of arguments.now))) result }
{
    let Some((key, options)) = next_word(arguments) else {
        return Err(TextError::WrongWords);
    };
    let Some(noreply) = noreply(without_zero(options)) else {
        return Err(TextError::WrongWords);
    };
    if !is_key(key) {
        return Err(TextError::BadKey);
    }
    Ok(Command::Delete { key, noreply })
}

fn quit(arguments: &[u8]) -> Result<Command<'_>, TextError>
    ensures { IsCommand (line_of_shape (quit_shape (words_of arguments.now))) result }
{
    if next_word(arguments).is_some() {
        return Err(TextError::WrongWords);
    }
    Ok(Command::Quit)
}

/// Whether the words behind all others ask for no answer; None where they say anything else.
#[inline(always)]
fn noreply(options: &[u8]) -> Option<bool>
    ensures { result ≡ noreply_of (words_of options.now) }
{
    let Some((word, rest)) = next_word(options) else {
        return Some(false);
    };
    if next_word(rest).is_none() && is_text(word, b"noreply") {
        Some(true)
    } else {
        None
    }
}

/// The words without a first 0, which says nothing.
fn without_zero(options: &[u8]) -> &[u8]
    ensures { words_of result.now ≡ without_zero (words_of options.now) }
{
    match next_word(options) {
        Some((word, rest)) if is_text(word, b"0") => rest,
        _ => options,
    }
}
