//! Texts of which each character is one byte, its code point.
ghost use Rattle.std.specs.Prelude.{◌≡◌, true, IfOk};
ghost use Rattle.std.specs.List.{list_all};
ghost use Rattle.std.specs.Str.{chars, encode_utf8_all};
ghost use Rattle.std.specs.String.{string_bytes};
ghost use Rattle.mr_shown.specs.Data.{is_byte};

use std::alloc::{AllocError, Global};

/// The text of which each character is one of these bytes.
pub fn text_of_characters(alloc: Global, bytes: &[u8]) -> Result<String, AllocError>
    ensures { IfOk result (λ text. string_bytes text ≡ encode_utf8_all bytes.now) }
{
    let mut text = String::with_capacity(alloc, bytes.len())?;
    for byte in bytes {
        text.push(char::from(*byte))?;
    }
    Ok(text)
}

/// Whether each character is a byte.
pub fn are_bytes(text: &str) -> bool
    ensures { result ≡ list_all is_byte (chars text.now) }
{
    for point in text.chars() {
        if u32::from(point) > 255 {
            return false;
        }
    }
    true
}

/// The bytes of which each is one character of the text.
pub fn bytes_of_characters(alloc: Global, text: &str) -> Result<Vec<u8>, AllocError>
    requires { list_all is_byte (chars text.now) ≡ true }
    ensures { IfOk result (λ bytes. bytes.items ≡ chars text.now) }
{
    let mut bytes = Vec::with_capacity(alloc, text.len())?;
    for point in text.chars() {
        bytes.push(u32::from(point) as u8)?;
    }
    Ok(bytes)
}
