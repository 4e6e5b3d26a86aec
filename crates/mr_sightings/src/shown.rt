//! What texts are made of.
ghost use Rattle.std.specs.Prelude.{◌≡◌, ◌++◌, ◌/◌, ◌%◌, OnOk, decimal};
ghost use Rattle.mr_sightings.specs.Shown.{shown_byte, printable, padding, right, left, zeros, digits_of, millis_text, comma_before, digits_with_commas, with_commas, noun_of, number_of, great_number_of, place_text};

use itoa::Buffer;
use mr_phases::PhaseName;
use std::alloc::AllocError;

/// The most spaces at once.
const MOST_SPACES: usize = 16;

/// The most zeros at once.
const MOST_ZEROS: usize = 6;

/// A byte that a terminal shows as one character: a question mark for any other.
pub(crate) fn shown_byte(byte: u8) -> u8
    ensures { result ≡ shown_byte byte }
{
    if byte < 32 {
        b'?'
    } else if byte > 126 {
        b'?'
    } else {
        byte
    }
}

/// Adds bytes as a terminal shows them.
pub(crate) fn push_printable(text: &mut Vec<u8>, word: &[u8]) -> Result<(), AllocError>
    ensures { OnOk result (text.new.items ≡ text.old.items ++ printable word.now) }
{
    for byte in word {
        text.push(shown_byte(*byte))?;
    }
    Ok(())
}

/// Adds so many spaces, up to `MOST_SPACES`.
fn push_padding(text: &mut Vec<u8>, count: usize) -> Result<(), AllocError>
    ensures { OnOk result (text.new.items ≡ text.old.items ++ padding count) }
{
    let spaces = b"                ";
    text.extend_from_slice(&spaces[..count.min(MOST_SPACES)])?;
    Ok(())
}

/// Adds a word at the right of so many columns.
#[tactic(auto, unfolding(crate::specs::Shown::right))]
pub(crate) fn push_right(text: &mut Vec<u8>, columns: usize, word: &[u8]) -> Result<(), AllocError>
    ensures { OnOk result (text.new.items ≡ text.old.items ++ right columns word.now) }
{
    push_padding(text, columns.saturating_sub(word.len()))?;
    text.extend_from_slice(word)?;
    Ok(())
}

/// Adds a word at the left of so many columns.
#[tactic(auto, unfolding(crate::specs::Shown::left))]
pub(crate) fn push_left(text: &mut Vec<u8>, columns: usize, word: &[u8]) -> Result<(), AllocError>
    ensures { OnOk result (text.new.items ≡ text.old.items ++ left columns word.now) }
{
    text.extend_from_slice(word)?;
    push_padding(text, columns.saturating_sub(word.len()))?;
    Ok(())
}

/// Adds a number in decimal digits.
pub(crate) fn push_number(text: &mut Vec<u8>, number: u64) -> Result<(), AllocError>
    ensures { OnOk result (text.new.items ≡ text.old.items ++ decimal number) }
{
    let mut buffer = Buffer::new();
    text.extend_from_slice(buffer.format(number).as_bytes())?;
    Ok(())
}

/// Adds so many zeros, up to `MOST_ZEROS`.
fn push_zeros(text: &mut Vec<u8>, count: usize) -> Result<(), AllocError>
    ensures { OnOk result (text.new.items ≡ text.old.items ++ zeros count) }
{
    let digits = b"000000";
    text.extend_from_slice(&digits[..count.min(MOST_ZEROS)])?;
    Ok(())
}

/// Adds a number in as many digits at least, with zeros in front.
#[tactic(auto, unfolding(crate::specs::Shown::digits_of))]
pub(crate) fn push_digits(text: &mut Vec<u8>, width: usize, number: u64) -> Result<(), AllocError>
    ensures { OnOk result (text.new.items ≡ text.old.items ++ digits_of width number) }
{
    let mut buffer = Buffer::new();
    let digits = buffer.format(number).as_bytes();
    push_zeros(text, width.saturating_sub(digits.len()))?;
    text.extend_from_slice(digits)?;
    Ok(())
}

/// Adds microseconds as milliseconds, with three decimals.
#[tactic(auto, unfolding(crate::specs::Shown::millis_text))]
pub(crate) fn push_millis(text: &mut Vec<u8>, micros: u64) -> Result<(), AllocError>
    ensures { OnOk result (text.new.items ≡ text.old.items ++ millis_text micros) }
{
    push_number(text, micros / 1_000)?;
    text.extend_from_slice(b".")?;
    push_digits(text, 3, micros % 1_000)?;
    Ok(())
}

/// Adds a comma where so many digits follow, which is a multiple of three.
fn push_comma(text: &mut Vec<u8>, follow: usize) -> Result<(), AllocError>
    ensures { OnOk result (text.new.items ≡ text.old.items ++ comma_before follow) }
{
    if follow > 0 && follow % 3 == 0 {
        text.extend_from_slice(b",")?;
    }
    Ok(())
}

/// Adds digits with their commas.
fn push_digits_with_commas(text: &mut Vec<u8>, digits: &[u8]) -> Result<(), AllocError>
    ensures { OnOk result (text.new.items ≡ text.old.items ++ digits_with_commas digits.now) }
{
    let mut follow = digits.len();
    for digit in digits {
        follow -= 1;
        text.push(*digit)?;
        push_comma(text, follow)?;
    }
    Ok(())
}

/// Adds a number with commas between its thousands.
pub(crate) fn push_with_commas(text: &mut Vec<u8>, number: u64) -> Result<(), AllocError>
    ensures { OnOk result (text.new.items ≡ text.old.items ++ with_commas number) }
{
    let mut buffer = Buffer::new();
    push_digits_with_commas(text, buffer.format(number).as_bytes())
}

/// Adds a noun in the form of one, or of none and of several.
pub(crate) fn push_noun(
    text: &mut Vec<u8>,
    number: u64,
    one: &str,
    many: &str,
) -> Result<(), AllocError>
    ensures { OnOk result (text.new.items ≡ text.old.items ++ noun_of number one.now many.now) }
{
    if number == 1 {
        text.extend_from_slice(one.as_bytes())?;
    } else {
        text.extend_from_slice(many.as_bytes())?;
    }
    Ok(())
}

/// Adds a number and its noun.
#[tactic(auto, unfolding(crate::specs::Shown::number_of))]
pub(crate) fn push_number_of(
    text: &mut Vec<u8>,
    number: u64,
    one: &str,
    many: &str,
) -> Result<(), AllocError>
    ensures { OnOk result (text.new.items ≡ text.old.items ++ number_of number one.now many.now) }
{
    push_number(text, number)?;
    text.extend_from_slice(b" ")?;
    push_noun(text, number, one, many)?;
    Ok(())
}

/// Adds a number with commas between its thousands, and its noun.
#[tactic(auto, unfolding(crate::specs::Shown::great_number_of))]
pub(crate) fn push_great_number_of(
    text: &mut Vec<u8>,
    number: u64,
    one: &str,
    many: &str,
) -> Result<(), AllocError>
    ensures { OnOk result (text.new.items ≡ text.old.items ++ great_number_of number one.now many.now) }
{
    push_with_commas(text, number)?;
    text.extend_from_slice(b" ")?;
    push_noun(text, number, one, many)?;
    Ok(())
}

/// Adds a phase and the migration that it is of.
#[tactic(auto, unfolding(crate::specs::Shown::place_text))]
pub(crate) fn push_place(text: &mut Vec<u8>, phase: PhaseName, hop: u32) -> Result<(), AllocError>
    ensures { OnOk result (text.new.items ≡ text.old.items ++ place_text phase hop) }
{
    text.extend_from_slice(phase.as_str().as_bytes())?;
    text.extend_from_slice(b" of hop ")?;
    push_number(text, u64::from(hop))?;
    Ok(())
}
