//! What the words of rows say: numbers in decimal digits, bytes in hexadecimal ones.
use std::alloc::Global;
use std::test::Fail;

/// The number that a word says.
pub fn number_of(word: &str) -> Result<u64, Fail> {
    match word.parse::<u64>() {
        Ok(number) => Ok(number),
        Err(_) => Err(Fail::from("a number has decimal digits")),
    }
}

/// The number that a word says, none where it is a hyphen.
pub fn perhaps_number_of(word: &str) -> Result<Option<u64>, Fail> {
    if word == "-" {
        return Ok(None);
    }
    Ok(Some(number_of(word)?))
}

/// The bytes that a word says: a hyphen, and hexadecimal digits of them.
pub fn bytes_of(alloc: Global, word: &str) -> Result<Vec<u8>, Fail> {
    match hex::decode(alloc, word.as_bytes().get(1..).unwrap_or(&[])) {
        Ok(bytes) => Ok(bytes),
        Err(_) => Err(Fail::from("bytes have hexadecimal digits")),
    }
}

/// The text that a word says so.
pub fn text_of(alloc: Global, word: &str) -> Result<String, Fail> {
    match String::from_utf8(bytes_of(alloc, word)?) {
        Ok(text) => Ok(text),
        Err(_) => Err(Fail::from("a text is UTF-8")),
    }
}
