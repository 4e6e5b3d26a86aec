//! What comes of asking for metrics and for statistics, where a row says what is answered.
use crate::words::Words;
use mr_http::{FetchFault, ask_stats, fetch_metrics};
use mr_text::{OverReader, OverWriter};
use std::alloc::Global;
use std::io::Read;
use std::test::Fail;

/// What was written, behind a line with 0 or the number of the fault, and before what was given.
fn outcome(
    alloc: Global,
    asked: &[u8],
    given: Result<Vec<u8>, FetchFault>,
) -> Result<Vec<u8>, Fail> {
    let mut text = Vec::new(alloc);
    let number = match &given {
        Ok(_) => 0,
        Err(fault) => fault.number(),
    };
    text.push(b'0'.saturating_add(number))?;
    text.push(b'\n')?;
    text.extend_from_slice(asked)?;
    match given {
        Ok(bytes) => text.extend_from_slice(bytes.as_slice())?,
        Err(_) => {}
    }
    Ok(text)
}

/// What comes of asking for the metrics of the host that a word says: the next one says what is answered, and the one behind it
/// how many spaces come after that.
pub fn told_of_fetch(alloc: Global, words: &mut Words<'_>) -> Result<Vec<u8>, Fail> {
    let host = words.text(alloc)?;
    let mut response = words.bytes(alloc)?;
    for _ in 0..words.number()? {
        response.push(b' ')?;
    }
    let mut reader = OverReader::new(response.as_slice());
    let mut writer = OverWriter::new(Vec::new(alloc));
    let given = fetch_metrics(alloc, host.as_str(), &mut reader, &mut writer);
    outcome(alloc, writer.into_inner().as_slice(), given)
}

/// What comes of asking for statistics: two words say what is answered, each of which is read by itself.
pub fn told_of_asking(alloc: Global, words: &mut Words<'_>) -> Result<Vec<u8>, Fail> {
    let first = words.bytes(alloc)?;
    let second = words.bytes(alloc)?;
    let mut reader = OverReader::new(first.as_slice().chain(second.as_slice()));
    let mut writer = OverWriter::new(Vec::new(alloc));
    let given = ask_stats(alloc, &mut reader, &mut writer);
    outcome(alloc, writer.into_inner().as_slice(), given)
}
