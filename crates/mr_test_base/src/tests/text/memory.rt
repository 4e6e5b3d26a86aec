//! Values and their copies where memory is refused: the same call made again gives what it gives with ample memory.
use super::{Rule, are, bytes_of_rule, holds, is, item};
use crate::tests::must;
use mr_test_support::{at_last, repeated_keys};
use mr_text::{Block, Cause, ItemList, Key, KeyList, Line, Reply, Request, TextError};
use std::alloc::{AllocError, Global};
use std::env::Env;
use std::process::Abort;

/// Bytes, and why they aren't a value, if they aren't.
type Row = (Rule, Option<TextError>);

static KEYS: [Row; 3] = [
    ((b"", b"x", 250, b""), None),
    ((b"", b"x", 251, b""), Some(TextError::BadKey)),
    ((b"", b"", 0, b""), Some(TextError::BadKey)),
];

/// Asserts whether bytes are a key, also where memory for it was refused once; likewise below.
fn is_key(rt: &(impl Abort + Env), alloc: Global, row: usize, bytes: &[u8], it: &Row) {
    let key = at_last!(rt, Key::new(alloc, bytes), Err(TextError::OutOfMemory));
    is(rt, row, key.as_ref().err().copied(), it.1);
    if let Ok(key) = key {
        are(rt, row, key.as_bytes(), bytes);
    }
}

#[test]
fn refused_memory_makes_a_key_later(rt: HostRuntime) {
    for (row, it) in KEYS.iter().enumerate() {
        let bytes = bytes_of_rule(&rt, rt.alloc(), it.0);
        is_key(&rt, rt.alloc(), row, &bytes, it);
    }
}

static BLOCKS: [Row; 3] = [
    ((b"", b"", 0, b""), None),
    ((b"", b"\n", 1_048_576, b""), None),
    ((b"", b"\n", 1_048_577, b""), Some(TextError::DataTooLong)),
];

fn is_block(rt: &(impl Abort + Env), alloc: Global, row: usize, bytes: &[u8], it: &Row) {
    let block = at_last!(rt, Block::new(alloc, bytes), Err(TextError::OutOfMemory));
    is(rt, row, block.as_ref().err().copied(), it.1);
    if let Ok(block) = block {
        are(rt, row, block.as_bytes(), bytes);
    }
}

#[test]
fn refused_memory_makes_a_block_later(rt: HostRuntime) {
    for (row, it) in BLOCKS.iter().enumerate() {
        let bytes = bytes_of_rule(&rt, rt.alloc(), it.0);
        is_block(&rt, rt.alloc(), row, &bytes, it);
    }
}

static LINES: [Row; 4] = [
    ((b"later", b"", 0, b""), None),
    ((b"", b"x", 8179, b""), None),
    ((b"", b"x", 8180, b""), Some(TextError::LineTooLong)),
    ((b"busy", b"", 0, b""), Some(TextError::WrongWords)),
];

fn is_line(rt: &(impl Abort + Env), alloc: Global, row: usize, bytes: &[u8], it: &Row) {
    let line = at_last!(rt, Line::new(alloc, bytes), Err(TextError::OutOfMemory));
    is(rt, row, line.as_ref().err().copied(), it.1);
    if let Ok(line) = line {
        are(rt, row, line.as_bytes(), bytes);
    }
}

#[test]
fn refused_memory_makes_a_line_later(rt: HostRuntime) {
    for (row, it) in LINES.iter().enumerate() {
        let bytes = bytes_of_rule(&rt, rt.alloc(), it.0);
        is_line(&rt, rt.alloc(), row, &bytes, it);
    }
}

/// A get of three keys, and a set.
fn requests(rt: &impl Abort, alloc: Global) -> [Request; 2] {
    let set = item(rt, alloc, b"k", 5, b"v");
    [
        Request::Get {
            keys: must(rt, KeyList::new(must(rt, repeated_keys(alloc, b"k", 3)))),
        },
        Request::Set {
            key: set.key,
            flags: 5,
            exptime: 0,
            block: set.block,
            noreply: false,
        },
    ]
}

/// Asserts that a copy is the same, also where memory for it was refused once; likewise below.
fn is_copied(rt: &(impl Abort + Env), row: usize, request: &Request) {
    let copy = must(rt, at_last!(rt, request.copy(), Err(AllocError)));
    holds(rt, row, request.same_as(&copy), true);
}

#[test]
fn refused_memory_copies_requests_later(rt: HostRuntime) {
    for (row, request) in requests(&rt, rt.alloc()).iter().enumerate() {
        is_copied(&rt, row, request);
    }
}

/// Two items, and an error whose text has no name.
fn replies(rt: &impl Abort, alloc: Global) -> [Reply; 2] {
    let mut items = Vec::new(alloc);
    must(rt, items.push(item(rt, alloc, b"k", 5, b"v")));
    must(rt, items.push(item(rt, alloc, b"b", 6, b"")));
    if items.len() > 8 {
        rt.panic("too many items");
    }
    let line = must(rt, Line::new(alloc, b"later"));
    [
        Reply::Items(ItemList::new(items)),
        Reply::ServerError(Cause::Other(line)),
    ]
}

fn reply_is_copied(rt: &(impl Abort + Env), row: usize, reply: &Reply) {
    let copy = must(rt, at_last!(rt, reply.copy(), Err(AllocError)));
    holds(rt, row, reply.same_as(&copy), true);
}

#[test]
fn refused_memory_copies_replies_later(rt: HostRuntime) {
    for (row, reply) in replies(&rt, rt.alloc()).iter().enumerate() {
        reply_is_copied(&rt, row, reply);
    }
}
