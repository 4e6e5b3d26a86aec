//! The formats of scripts and transcripts.
ghost use Rattle.std.specs.Prelude.{◌≡◌};

use mr_text::MAX_BLOCK;

/// The most data of format 1, in bytes.
pub const MAX_DATA_ONE: usize = 8192;

/// The format of a script or of a transcript. The two differ in how data stands in their texts, and in nothing else.
#[derive(Clone, Copy, Debug, PartialEq, Eq)]
pub enum Format {
    /// Each character of data is one byte, its code point.
    One,
    /// Two hexadecimal digits of data are one byte.
    Two,
}

impl Format {
    ghost use Rattle.mr_shown.specs.Format.{format_of, format_number, most_data};

    /// The format of this number: of 1 or of 2, and of no other.
    pub fn of_number(number: u64) -> Option<Format>
        ensures { result ≡ format_of number }
    {
        match number {
            1 => Some(Format::One),
            2 => Some(Format::Two),
            _ => None,
        }
    }

    /// The number by which a text names the format.
    pub fn number(self) -> u64
        ensures { result ≡ format_number self }
    {
        match self {
            Format::One => 1,
            Format::Two => 2,
        }
    }

    /// The longest data, in bytes.
    pub fn most_data(self) -> usize
        ensures { result ≡ most_data self }
    {
        match self {
            Format::One => MAX_DATA_ONE,
            Format::Two => MAX_BLOCK,
        }
    }
}
