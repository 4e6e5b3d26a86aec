//! A cache that counts the items that it drops for new ones.
use super::super::{is, must};
use super::playing::sends;
use mr_loop::{CountingCache, NodeLoop, NodePause};
use mr_node::CacheNode;
use std::alloc::Global;
use std::process::Abort;

/// What a client sends at which reading to a node of two items; how many these are then, and how many have gone for new ones.
static PIECES: [(u64, &[u8], usize, u64); 7] = [
    (100, b"set a 0 0 1\r\nx\r\nset b 0 0 1\r\ny\r\n", 2, 0),
    (100, b"set a 0 0 1\r\nz\r\n", 2, 0),
    (100, b"set c 0 -1 1\r\nx\r\n", 2, 0),
    (100, b"set c 0 0 1\r\nx\r\nget b a c\r\n", 2, 1),
    (100, b"set d 0 2592001 1\r\nx\r\n", 2, 2),
    (2_592_001, b"set e 0 2592001 1\r\nx\r\n", 2, 2),
    (
        100,
        b"delete c\r\nset e 0 0 1\r\nx\r\nset f 0 0 1\r\nx\r\n",
        2,
        3,
    ),
];

/// A cache of two items.
fn two_items(rt: &impl Abort, alloc: Global) -> CountingCache {
    match CacheNode::new(alloc, 2) {
        Ok(cache) => CountingCache::new(cache, 2),
        Err(_) => rt.panic("out of memory"),
    }
}

#[test]
fn items_that_go_for_new_ones_are_counted(rt: HostRuntime) {
    let cache = two_items(&rt, rt.alloc());
    let mut node = must(&rt, NodeLoop::new(rt.alloc(), cache, 4096));
    must(&rt, node.add_place());
    for (row, (reading, piece, items, evicted)) in PIECES.iter().enumerate() {
        let pause = sends(&rt, &mut node, 0, *reading, piece);
        is(&rt, row, pause, NodePause::NeedsBytes);
        let cache = node.cache();
        is(
            &rt,
            row,
            (cache.len(), cache.capacity(), cache.evicted()),
            (*items, 2, *evicted),
        );
    }
}
