//! The words of a row, one after another: numbers in decimal digits, bytes in hexadecimal ones.
use std::alloc::Global;
use std::test::Fail;

/// The words that are left of a row.
#[derive(Drop)]
pub struct Words<'a> {
    alloc: Global,
    words: Vec<&'a str>,
    next: usize,
}

impl<'a> Words<'a> {
    /// The words of a row, between these characters.
    pub fn of(alloc: Global, row: &'a str, between: char) -> Result<Words<'a>, Fail> {
        let words = row.split(between).collect(alloc)?;
        Ok(Words {
            alloc,
            words,
            next: 0,
        })
    }

    /// The next word.
    pub fn word(&mut self) -> Result<&'a str, Fail> {
        let Some(word) = self.words.get(self.next) else {
            return Err(Fail::from("a row has too few words"));
        };
        self.next = self.next.saturating_add(1);
        Ok(*word)
    }

    /// The next word, as a number.
    pub fn number(&mut self) -> Result<u64, Fail> {
        match self.word()?.parse::<u64>() {
            Ok(number) => Ok(number),
            Err(_) => Err(Fail::from("a number has decimal digits")),
        }
    }

    /// The next word, as a place or a count.
    pub fn count(&mut self) -> Result<usize, Fail> {
        Ok(self.number()? as usize)
    }

    /// The next word, as bytes.
    pub fn bytes(&mut self) -> Result<Vec<u8>, Fail> {
        bytes_of(self.alloc, self.word()?)
    }
}

/// The bytes that a word says: a hyphen, and hexadecimal digits of them.
pub fn bytes_of(alloc: Global, word: &str) -> Result<Vec<u8>, Fail> {
    match hex::decode(alloc, word.as_bytes().get(1..).unwrap_or(&[])) {
        Ok(bytes) => Ok(bytes),
        Err(_) => Err(Fail::from("bytes have hexadecimal digits")),
    }
}
