//! Why requests fail, in the words that clients see.
use crate::line::Line;

/// Why a request failed, as the text of a CLIENT_ERROR or a SERVER_ERROR tells it.
#[derive(Debug, Drop)]
pub enum Cause {
    /// A line was too long.
    LineTooLong,
    /// A key wasn't one.
    BadKey,
    /// A number wasn't one, or didn't fit its field.
    BadNumber,
    /// The words of a command were wrong.
    WrongWords,
    /// A block was too long.
    DataTooLong,
    /// A block didn't end as it has to.
    BadDataEnd,
    /// No answer of a node came.
    LegLost,
    /// Too many requests are under way.
    Busy,
    /// Memory was refused.
    OutOfMemory,
    /// The clock failed.
    ClockFault,
    /// The record of what was done is full.
    BookFull,
    /// No number for a request is left.
    NumbersSpent,
    /// A node answered `ERROR`.
    NodeRefused,
    /// Any other text.
    Other(Line),
}
