//! Copies of items, and the numbers of errors.
use super::{Told, are, is};
use crate::tests::must;
use mr_node::{CacheNode, CachedItem, NodeError, Perform};
use mr_test_support::{at_last, grant_memory, refuse_memory};
use mr_text::Key;
use std::alloc::{AllocError, Global};
use std::env::Env;
use std::process::Abort;

/// Asserts what an item has.
fn has(rt: &impl Abort, item: &CachedItem) {
    is(rt, 0, item.flags, 5);
    are(rt, 1, item.block.as_bytes(), b"v");
    is(rt, 2, item.expires_at, Some(110));
}

/// A copy of the item of the key `k`, made again where memory for it was refused.
fn copy_of_item(rt: &(impl Abort + Env), node: &CacheNode, key: &Key) -> Option<CachedItem> {
    match node.peek(key) {
        Some(item) => Some(must(rt, at_last!(rt, item.copy(), Err(AllocError)))),
        None => None,
    }
}

/// Asserts that the copy of an item that a set leaves is there, though the cache keeps nothing then.
fn is_copied(rt: &(impl Abort + Env), alloc: Global, node: &mut CacheNode) {
    let command = must(rt, Told::Set(10).of(alloc, b'k'));
    must(rt, node.perform(100, command));
    let copy = copy_of_item(rt, node, &must(rt, Key::new(alloc, b"k")));
    node.restart();
    match &copy {
        Some(item) => has(rt, item),
        None => rt.panic("no item is kept"),
    }
}

#[test]
fn refused_memory_copies_an_item_later(rt: HostRuntime) {
    let mut node = must(&rt, CacheNode::new(rt.alloc(), 1));
    is_copied(&rt, rt.alloc(), &mut node);
}

/// Errors, and their numbers.
static NUMBERS: [(NodeError, u8); 5] = [
    (NodeError::ZeroCapacity, 1),
    (NodeError::OutOfMemory, 2),
    (NodeError::ReadFault, 3),
    (NodeError::WriteFault, 4),
    (NodeError::TurnsSpent, 5),
];

#[test]
fn errors_have_their_numbers(rt: HostRuntime) {
    for (row, it) in NUMBERS.iter().enumerate() {
        is(&rt, row, it.0.number(), it.1);
    }
}
