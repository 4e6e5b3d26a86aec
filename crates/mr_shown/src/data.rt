//! Data, and the texts that show it.
ghost use Rattle.std.specs.Prelude.{◌≡◌, ◌/◌, ◌%◌, ◌==◌, ◌&&◌, nat_le, is_some, IfOk, IsOk, IsSome, Ok, Some};
ghost use Rattle.std.specs.List.{list_all};
ghost use Rattle.std.specs.Str.{chars, encode_utf8_all};
ghost use Rattle.std.specs.String.{string_bytes};
ghost use Rattle.hex.specs.Hex.{decode_of, is_hex_digit};
ghost use Rattle.mr_text.specs.Limits.{MAX_BLOCK};
ghost use Rattle.mr_shown.specs.Data.{data_of, shown_data};

use crate::characters::{are_bytes, bytes_of_characters, text_of_characters};
use crate::format::{Format, MAX_DATA_ONE};
use hex::FromHexError;
use mr_text::MAX_BLOCK;
use std::alloc::{AllocError, Global};

/// The text that shows these bytes, whose hexadecimal digits are in lower case.
pub fn text_of_data(alloc: Global, format: Format, bytes: &[u8]) -> Result<String, AllocError>
    ensures { IfOk result (λ text. string_bytes text ≡ encode_utf8_all (shown_data format bytes.now)) }
{
    match format {
        Format::One => text_of_characters(alloc, bytes),
        Format::Two => hex::encode(alloc, bytes),
    }
}

/// Whether the text shows data of the format, which is then not too long. Hexadecimal digits may be of either case.
pub fn is_data(format: Format, text: &str) -> bool
    ensures { result ≡ is_some (data_of format (chars text.now)) }
{
    match format {
        Format::One => are_bytes(text) && text.chars().count() <= MAX_DATA_ONE,
        Format::Two => are_few_pairs(text.len()) && are_digits(text),
    }
}

/// Whether so many hexadecimal digits are whole bytes, and not too many.
fn are_few_pairs(digits: usize) -> bool
    ensures { result ≡ ((digits % 2 == 0) && nat_le (digits / 2) MAX_BLOCK) }
{
    digits % 2 == 0 && digits / 2 <= MAX_BLOCK
}

/// Whether each byte of the text is a hexadecimal digit.
fn are_digits(text: &str) -> bool
    ensures { result ≡ list_all is_hex_digit text.now }
{
    text.as_bytes()
        .iter()
        .all(|digit| digit.is_ascii_hexdigit())
}

/// The bytes that a text shows which is data.
pub fn bytes_of_data(alloc: Global, format: Format, text: &str) -> Result<Vec<u8>, AllocError>
    requires { IsSome (data_of format (chars text.now)) }
    ensures { IfOk result (λ bytes. data_of format (chars text.now) ≡ Some bytes.items) }
{
    match format {
        Format::One => bytes_of_characters(alloc, text),
        Format::Two => bytes_of_digits(alloc, text),
    }
}

/// The bytes of which each is two hexadecimal digits of the text.
fn bytes_of_digits(alloc: Global, text: &str) -> Result<Vec<u8>, AllocError>
    requires { IsOk (decode_of text.now) }
    ensures { IfOk result (λ bytes. decode_of text.now ≡ Ok bytes.items) }
{
    match hex::decode(alloc, text.as_bytes()) {
        Ok(bytes) => Ok(bytes),
        Err(FromHexError::OutOfMemory) => Err(AllocError),
        Err(_) => unreachable!(),
    }
}
