//! Texts of errors that have no name of their own.
ghost use Rattle.std.specs.Prelude.{◌≡◌, ◌≤◌, ◌↔◌, length, IsTrue, IfOk};
ghost use Rattle.mr_text.specs.Line.{HasLineFeed};

use crate::cause_text::is_named_text;
use crate::error::TextError;
use crate::limits::MAX_ERROR_TEXT;
use memchr::memchr;
use std::alloc::{AllocError, Global};
use std::marker::Model;

/// The text of an error that has no name of its own: up to 8,179 bytes without a line feed.
#[derive(Debug, Drop)]
pub struct Line {
    bytes: Vec<u8>,
}

impl Model for Line {
    ghost use Rattle.std.specs.Prelude.{ℕ, List};
    ghost use Rattle.mr_text.specs.Line.{IsErrorText};

    ghost Value = { List ℕ };

    ghost view = { λ l. l.bytes.items };

    ghost invariant = { λ l. IsErrorText l.bytes.items };
}

impl Line {
    ghost use Rattle.mr_text.specs.Line.{IsErrorText, IsLineOf};

    /// The text of these bytes. LineTooLong where they are too many, else WrongWords where a line feed is among
    /// them or they are the text of a named cause.
    pub fn new(alloc: Global, bytes: &[u8]) -> Result<Line, TextError>
        ensures { IsLineOf bytes.now result }
    {
        if bytes.len() > MAX_ERROR_TEXT {
            return Err(TextError::LineTooLong);
        }
        if has_line_feed(bytes) || is_named_text(bytes) {
            return Err(TextError::WrongWords);
        }
        Ok(Line::of(alloc, bytes)?)
    }

    /// The text of bytes that are known to be one.
    pub(crate) fn of(alloc: Global, bytes: &[u8]) -> Result<Line, AllocError>
        requires { IsErrorText bytes.now }
        ensures { IfOk result (λ line. line ≡ bytes.now) }
    {
        let bytes = Vec::from_slice(alloc, bytes)?;
        Ok(Line { bytes })
    }

    /// The bytes of the text.
    pub fn as_bytes(&self) -> &[u8]
        ensures bytes { result.now ≡ self.now }
        ensures text { IsErrorText result.now }
    {
        self.bytes.as_slice()
    }

    /// Whether the other line is equal.
    pub fn same_as(&self, other: &Line) -> bool
        ensures { IsTrue result ↔ (self.now ≡ other.now) }
    {
        self.as_bytes() == other.as_bytes()
    }

    /// An equal text.
    pub fn copy(&self) -> Result<Line, AllocError>
        ensures { IfOk result (λ line. line ≡ self.now) }
    {
        Line::of(*self.bytes.allocator(), self.as_bytes())
    }
}

/// Whether a line feed is among the bytes.
fn has_line_feed(bytes: &[u8]) -> bool
    ensures { IsTrue result ↔ HasLineFeed bytes.now }
{
    memchr(b'\n', bytes).is_some()
}
