//! Memory that is refused while a client is served. Each way goes on with ample memory.
use super::super::{are, must};
use mr_loop::{NodeLoop, NodePause};
use mr_node::CacheNode;
use mr_test_support::{grant_memory, refuse_memory};
use std::alloc::AllocError;
use std::env::Env;
use std::process::Abort;

/// Sends a client's piece where memory may be refused, and goes on with ample memory until all of it is served.
fn sends(rt: &(impl Abort + Env), node: &mut NodeLoop<CacheNode>, piece: &[u8]) {
    if 0 >= node.places() {
        rt.panic("no such place");
    }
    refuse_memory(rt);
    let first: Result<NodePause, AllocError> = node.on_client_bytes(0, 100, piece);
    grant_memory(rt);
    let last = match first {
        Ok(NodePause::NeedsMemory) => must(rt, node.on_client_bytes(0, 100, b"")),
        Ok(pause) => pause,
        Err(_) => must(rt, node.on_client_bytes(0, 100, piece)),
    };
    super::super::is(rt, 0, last, NodePause::NeedsBytes);
}

/// What a client is told, as it was asked for in three pieces.
fn output<'a>(rt: &impl Abort, node: &'a NodeLoop<CacheNode>) -> &'a [u8] {
    if 0 >= node.places() {
        rt.panic("no such place");
    }
    node.client_output(0)
}

/// A set, a get and a delete, each of which is told its own answer, or that memory was refused. A set that was refused has
/// nothing for the others to find.
#[test]
fn refused_memory_is_told_or_leaves_all_as_it_was(rt: HostRuntime) {
    let cache = must(&rt, CacheNode::new(rt.alloc(), 8));
    let mut node = must(&rt, NodeLoop::new(rt.alloc(), cache, 4096));
    must(&rt, node.add_place());
    sends(&rt, &mut node, b"set k 0 0 1\r\nv\r\n");
    let refused = b"SERVER_ERROR out of memory\r\n".as_slice();
    if output(&rt, &node) == refused {
        sends(&rt, &mut node, b"delete k\r\n");
        are(
            &rt,
            1,
            output(&rt, &node),
            b"SERVER_ERROR out of memory\r\nNOT_FOUND\r\n",
        );
        return;
    }
    are(&rt, 2, output(&rt, &node), b"STORED\r\n");
    sends(&rt, &mut node, b"get k\r\n");
    let is_found = output(&rt, &node) == b"STORED\r\nVALUE k 0 1\r\nv\r\nEND\r\n".as_slice();
    if !is_found {
        are(
            &rt,
            3,
            output(&rt, &node),
            b"STORED\r\nSERVER_ERROR out of memory\r\n",
        );
    }
    sends(&rt, &mut node, b"delete k\r\n");
    super::super::holds(
        &rt,
        4,
        output(&rt, &node).ends_with(b"\r\nDELETED\r\n"),
        true,
    );
}
