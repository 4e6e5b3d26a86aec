//! The words of a row, one after another.
use crate::digits::{bytes_of, number_of, perhaps_number_of, text_of};
use std::alloc::Global;
use std::test::Fail;

/// The words that are left of a row.
#[derive(Drop)]
pub struct Words<'a> {
    words: Vec<&'a str>,
    next: usize,
}

impl<'a> Words<'a> {
    /// The words of a row, between these characters.
    pub fn of(alloc: Global, row: &'a str, between: char) -> Result<Words<'a>, Fail> {
        let words = row.split(between).collect(alloc)?;
        Ok(Words { words, next: 0 })
    }

    /// The next word.
    pub fn word(&mut self) -> Result<&'a str, Fail> {
        let Some(word) = self.words.get(self.next) else {
            return Err(Fail::from("a row has too few words"));
        };
        self.next = self.next.saturating_add(1);
        Ok(*word)
    }

    /// The next word, as a number.
    pub fn number(&mut self) -> Result<u64, Fail> {
        number_of(self.word()?)
    }

    /// The next word, as a number that may be none.
    pub fn perhaps(&mut self) -> Result<Option<u64>, Fail> {
        perhaps_number_of(self.word()?)
    }

    /// The next word, as a text.
    pub fn text(&mut self, alloc: Global) -> Result<String, Fail> {
        text_of(alloc, self.word()?)
    }

    /// The next word, as bytes.
    pub fn bytes(&mut self, alloc: Global) -> Result<Vec<u8>, Fail> {
        bytes_of(alloc, self.word()?)
    }
}
