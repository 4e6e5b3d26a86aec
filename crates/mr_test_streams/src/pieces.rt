//! Bytes on their way, and the replies that they are.
use mr_text::{Reply, ReplyReader};
use std::alloc::Global;
use std::test::Fail;

/// Takes so many bytes from the front, or all.
pub fn taken(bytes: &mut Vec<u8>, count: usize) -> Result<Vec<u8>, Fail> {
    let alloc = *bytes.allocator();
    let (front, others) = bytes.as_slice().split_at(count.min(bytes.len()));
    let piece = Vec::from_slice(alloc, front)?;
    let rest = Vec::from_slice(alloc, others)?;
    *bytes = rest;
    Ok(piece)
}

/// The bytes behind the first so many.
pub fn behind(alloc: Global, bytes: &[u8], count: usize) -> Result<Vec<u8>, Fail> {
    Ok(Vec::from_slice(alloc, bytes.get(count..).unwrap_or(&[]))?)
}

/// The replies that are whole by these bytes.
pub fn replies_in(
    alloc: Global,
    reader: &mut ReplyReader,
    piece: &[u8],
) -> Result<Vec<Reply>, Fail> {
    reader.feed(piece)?;
    let mut replies = Vec::new(alloc);
    for _ in 0..u64::MAX {
        match reader.next()? {
            Some(reply) => replies.push(reply)?,
            None => return Ok(replies),
        }
    }
    Ok(replies)
}
