//! The texts of the named causes.

ghost use Rattle.std.specs.Prelude.{◌≡◌, ◌↔◌, IsTrue, IfOk, IfNone};
ghost use Rattle.mr_text.specs.CauseText.{cause_named, text_of_cause};
ghost use Rattle.mr_text.specs.NamedText.{IsNamedText};

use crate::cause::Cause;
use std::alloc::AllocError;

impl Cause {
    /// The text, as it stands behind the word of an error.
    pub fn text(&self) -> &[u8]
        ensures { result.now ≡ text_of_cause self.now }
    {
        match self {
            Cause::LineTooLong => b"line too long",
            Cause::BadKey => b"bad key",
            Cause::BadNumber => b"bad number",
            Cause::WrongWords => b"wrong words",
            Cause::DataTooLong => b"data too long",
            Cause::BadDataEnd => b"bad data end",
            Cause::LegLost => b"leg lost",
            Cause::Busy => b"busy",
            Cause::OutOfMemory => b"out of memory",
            Cause::ClockFault => b"clock fault",
            Cause::BookFull => b"book full",
            Cause::NumbersSpent => b"numbers spent",
            Cause::NodeRefused => b"node refused",
            Cause::Other(line) => line.as_bytes(),
        }
    }

    /// Whether the other cause is equal. A named cause has a text of its own, and no other cause has it.
    pub fn same_as(&self, other: &Cause) -> bool
        ensures { IsTrue result ↔ (self.now ≡ other.now) }
    {
        match (self, other) {
            (Cause::Other(line), Cause::Other(other_line)) => line.same_as(other_line),
            (Cause::Other(_), _) | (_, Cause::Other(_)) => false,
            _ => self.text() == other.text(),
        }
    }

    /// An equal cause.
    pub fn copy(&self) -> Result<Cause, AllocError>
        ensures { IfOk result (λ cause. cause ≡ self.now) }
    {
        Ok(match self {
            Cause::LineTooLong => Cause::LineTooLong,
            Cause::BadKey => Cause::BadKey,
            Cause::BadNumber => Cause::BadNumber,
            Cause::WrongWords => Cause::WrongWords,
            Cause::DataTooLong => Cause::DataTooLong,
            Cause::BadDataEnd => Cause::BadDataEnd,
            Cause::LegLost => Cause::LegLost,
            Cause::Busy => Cause::Busy,
            Cause::OutOfMemory => Cause::OutOfMemory,
            Cause::ClockFault => Cause::ClockFault,
            Cause::BookFull => Cause::BookFull,
            Cause::NumbersSpent => Cause::NumbersSpent,
            Cause::NodeRefused => Cause::NodeRefused,
            Cause::Other(line) => Cause::Other(line.copy()?),
        })
    }
}

/// The cause that has this text for its name.
pub(crate) fn named_cause(text: &[u8]) -> Option<Cause>
    ensures { result ≡ cause_named text.now }
{
    for cause in [
        Cause::LineTooLong,
        Cause::BadKey,
        Cause::BadNumber,
        Cause::WrongWords,
        Cause::DataTooLong,
        Cause::BadDataEnd,
        Cause::LegLost,
        Cause::Busy,
        Cause::OutOfMemory,
        Cause::ClockFault,
        Cause::BookFull,
        Cause::NumbersSpent,
        Cause::NodeRefused,
    ] {
        if text == cause.text() {
            return Some(cause);
        }
    }
    None
}

/// Whether the text is a named cause's.
pub(crate) fn is_named_text(text: &[u8]) -> bool
    ensures { IsTrue result ↔ IsNamedText text.now }
{
    named_cause(text).is_some()
}
