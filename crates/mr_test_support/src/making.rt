//! Values and texts that tests are made of.
use mr_text::{Key, OverWriter, Reply, Request, TextError, WriteFault, write_reply, write_request};
use std::alloc::{AllocError, Global};

/// Adds so many equal bytes.
pub fn add_repeated(bytes: &mut Vec<u8>, byte: u8, count: usize) -> Result<(), AllocError> {
    for _ in 0..count {
        bytes.push(byte)?;
    }
    Ok(())
}

/// So many equal keys.
pub fn repeated_keys(alloc: Global, key: &[u8], count: usize) -> Result<Vec<Key>, TextError> {
    let mut keys = Vec::new(alloc);
    for _ in 0..count {
        keys.push(Key::new(alloc, key)?)?;
    }
    Ok(keys)
}

/// The bytes that a request is written as.
pub fn request_text(alloc: Global, request: &Request) -> Result<Vec<u8>, WriteFault> {
    let mut sink = OverWriter::new(Vec::new(alloc));
    write_request(request, &mut sink)?;
    Ok(sink.into_inner())
}

/// The bytes that a reply is written as.
pub fn reply_text(alloc: Global, reply: &Reply) -> Result<Vec<u8>, WriteFault> {
    let mut sink = OverWriter::new(Vec::new(alloc));
    write_reply(reply, &mut sink)?;
    Ok(sink.into_inner())
}

/// A table's first cell, which ends at a `|`, and what follows it.
pub fn first_cell(table: &[u8]) -> (&[u8], &[u8]) {
    let mut end: usize = 0;
    for byte in table {
        if *byte == b'|' {
            break;
        }
        end = end.saturating_add(1);
    }
    let behind = end.saturating_add(1);
    (
        table.get(..end).unwrap_or(b""),
        table.get(behind..).unwrap_or(b""),
    )
}
