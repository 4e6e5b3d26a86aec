//! What a scraper of a row is answered.
use crate::words::Words;
use mr_http::{Tells, serve_scrape};
use mr_text::{OverReader, OverWriter};
use std::alloc::{AllocError, Global};
use std::test::Fail;

/// What tells one line.
struct OneLine;

impl Tells for OneLine {
    ghost use Rattle.std.specs.Prelude.{⊤};

    ghost told = { λ _ _. ⊤ };

    fn tell(&self, alloc: Global) -> Result<Vec<u8>, AllocError> {
        Vec::from_slice(alloc, b"metrics 1\n")
    }
}

/// What is answered to the bytes that a word says.
pub fn told_of_scrape(alloc: Global, words: &mut Words<'_>) -> Result<Vec<u8>, Fail> {
    let request = words.bytes(alloc)?;
    let mut reader = OverReader::new(request.as_slice());
    let mut writer = OverWriter::new(Vec::new(alloc));
    match serve_scrape(alloc, &OneLine, &mut reader, &mut writer) {
        Ok(()) => Ok(writer.into_inner()),
        Err(_) => Err(Fail::from("a scraper is answered")),
    }
}
