//! What lines for people are made of.
ghost use Rattle.std.specs.Prelude.{◌≡◌, ◌++◌, ◌+◌, ◌-◌, ◌≤◌, length, OnOk};
ghost use Rattle.mr_watch.specs.Shown.{shown_byte, printable, padding, cut, left, scaled, unit_of, short, signed_cell, cell, perhaps_cell, colour_text, coloured};

use itoa::Buffer;
use std::alloc::AllocError;

/// The most spaces at once.
const MOST_SPACES: usize = 32;

/// A colour of a terminal.
#[derive(Clone, Copy, Debug, PartialEq, Eq)]
pub(crate) enum Colour {
    /// All is well.
    Green,
    /// Something is wrong.
    Red,
    /// It isn't known yet.
    Yellow,
    /// A name that stands out.
    Cyan,
}

impl Colour {
    /// How a terminal is told to begin with it.
    fn as_str(self) -> &'static str
        ensures { result.now ≡ colour_text self }
    {
        match self {
            Colour::Green => "\x1b[32m",
            Colour::Red => "\x1b[31m",
            Colour::Yellow => "\x1b[33m",
            Colour::Cyan => "\x1b[36m",
        }
    }
}

/// A byte that a terminal shows as one character: a question mark for any other.
pub(crate) fn shown_byte(byte: u8) -> u8
    ensures { result ≡ shown_byte byte }
{
    if byte < 32 {
        b'?'
    } else if byte > 126 {
        b'?'
    } else {
        byte
    }
}

/// Adds bytes that came from outside, without what a terminal would take for a command.
pub(crate) fn push_printable(text: &mut Vec<u8>, word: &[u8]) -> Result<(), AllocError>
    ensures { OnOk result (text.new.items ≡ text.old.items ++ printable word.now) }
{
    for byte in word {
        text.push(shown_byte(*byte))?;
    }
    Ok(())
}

/// Adds so many spaces, up to `MOST_SPACES`.
pub(crate) fn push_padding(text: &mut Vec<u8>, count: usize) -> Result<(), AllocError>
    ensures { OnOk result (text.new.items ≡ text.old.items ++ padding count) }
{
    let spaces = b"                                ";
    text.extend_from_slice(&spaces[..count.min(MOST_SPACES)])?;
    Ok(())
}

/// Adds as much of a word as fits into so many columns.
pub(crate) fn push_cut(text: &mut Vec<u8>, columns: usize, word: &[u8]) -> Result<(), AllocError>
    ensures { OnOk result (text.new.items ≡ text.old.items ++ cut columns word.now) }
{
    if word.len() <= columns {
        push_printable(text, word)
    } else {
        push_printable(text, &word[..columns])
    }
}

/// Adds a word in so many columns, with spaces behind it.
pub(crate) fn push_left(text: &mut Vec<u8>, columns: usize, word: &[u8]) -> Result<(), AllocError>
    ensures { OnOk result (text.new.items ≡ text.old.items ++ left columns word.now) }
{
    push_cut(text, columns, word)?;
    push_padding(text, columns.saturating_sub(word.len()))?;
    Ok(())
}

/// A number in at most six digits.
fn scaled(number: u64) -> u64
    ensures { result ≡ scaled number }
{
    if number < 1_000_000 {
        number
    } else if number < 1_000_000_000 {
        number / 1_000
    } else if number < 1_000_000_000_000 {
        number / 1_000_000
    } else if number < 1_000_000_000_000_000 {
        number / 1_000_000_000
    } else if number < 1_000_000_000_000_000_000 {
        number / 1_000_000_000_000
    } else {
        number / 1_000_000_000_000_000
    }
}

/// The letter that says what its digits count.
fn unit_of(number: u64) -> &'static str
    ensures text { result.now ≡ unit_of number }
    ensures short { length result.now ≤ 1 }
{
    if number < 1_000_000 {
        ""
    } else if number < 1_000_000_000 {
        "k"
    } else if number < 1_000_000_000_000 {
        "M"
    } else if number < 1_000_000_000_000_000 {
        "G"
    } else if number < 1_000_000_000_000_000_000 {
        "T"
    } else {
        "P"
    }
}

/// Adds a number in at most six digits and a letter.
pub(crate) fn push_short(text: &mut Vec<u8>, number: u64) -> Result<(), AllocError>
    ensures { OnOk result (text.new.items ≡ text.old.items ++ short number) }
{
    let mut buffer = Buffer::new();
    text.extend_from_slice(buffer.format(scaled(number)).as_bytes())?;
    text.extend_from_slice(unit_of(number).as_bytes())?;
    Ok(())
}

/// Adds a sign, digits and a unit at the right of a column of eight.
fn push_right(text: &mut Vec<u8>, sign: &str, digits: &str, unit: &str) -> Result<(), AllocError>
    requires sign { length sign.now ≤ 1 }
    requires digits { length digits.now ≤ 40 }
    requires unit { length unit.now ≤ 1 }
    ensures { OnOk result (text.new.items ≡ text.old.items
        ++ (padding (8 - (length sign.now + length digits.now + length unit.now)) ++ (sign.now ++ (digits.now ++ unit.now)))) }
{
    let columns = sign.len() + digits.len() + unit.len();
    push_padding(text, 8usize.saturating_sub(columns))?;
    text.extend_from_slice(sign.as_bytes())?;
    text.extend_from_slice(digits.as_bytes())?;
    text.extend_from_slice(unit.as_bytes())?;
    Ok(())
}

/// Adds a number at the right of a column of eight, behind a sign.
pub(crate) fn push_signed_cell(
    text: &mut Vec<u8>,
    sign: &str,
    number: u64,
) -> Result<(), AllocError>
    requires { length sign.now ≤ 1 }
    ensures { OnOk result (text.new.items ≡ text.old.items ++ signed_cell sign.now number) }
{
    let mut buffer = Buffer::new();
    let digits = buffer.format(scaled(number));
    push_right(text, sign, digits, unit_of(number))
}

/// Adds a number in a column of eight.
pub(crate) fn push_cell(text: &mut Vec<u8>, number: u64) -> Result<(), AllocError>
    ensures { OnOk result (text.new.items ≡ text.old.items ++ cell number) }
{
    push_signed_cell(text, "", number)
}

/// The same where there may be none.
pub(crate) fn push_perhaps_cell(text: &mut Vec<u8>, number: Option<u64>) -> Result<(), AllocError>
    ensures { OnOk result (text.new.items ≡ text.old.items ++ perhaps_cell number) }
{
    match number {
        Some(number) => push_cell(text, number),
        None => {
            text.extend_from_slice(b"       -")?;
            Ok(())
        }
    }
}

/// Adds a word in a colour, where there are colours.
pub(crate) fn push_coloured(
    text: &mut Vec<u8>,
    colours: bool,
    colour: Colour,
    word: &str,
) -> Result<(), AllocError>
    ensures { OnOk result (text.new.items ≡ text.old.items ++ coloured colours colour word.now) }
{
    if !colours {
        text.extend_from_slice(word.as_bytes())?;
        return Ok(());
    }
    text.extend_from_slice(colour.as_str().as_bytes())?;
    text.extend_from_slice(word.as_bytes())?;
    text.extend_from_slice(b"\x1b[0m")?;
    Ok(())
}
