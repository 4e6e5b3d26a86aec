//! What clients of a node are told while the clock gives no reading.
use super::super::is;
use super::playing::Step::{self, *};
use super::playing::{is_asked_at, play};
use mr_loop::NodePause;

/// The cache is asked nothing, and each client is told so, unless it wants no answer. What isn't whole is served once the clock reads
/// again.
static ALL_KINDS: [Step; 9] = [
    Sends(0, b"set k 0 0 1\r\nv\r\n", NodePause::NeedsBytes),
    SendsUnread(
        0,
        b"get k b\r\nset k 0 0 1\r\nw\r\nset k 0 0 1 noreply\r\nx\r\nnonsense\r\ndelete k\r\nget",
        NodePause::NeedsBytes,
    ),
    Told(
        0,
        b"STORED\r\nSERVER_ERROR clock fault\r\nSERVER_ERROR clock fault\r\nERROR\r\nSERVER_ERROR clock fault\r\n",
    ),
    Reads(101),
    Sends(0, b" k\r\ndelete k", NodePause::NeedsBytes),
    Told(0, b"VALUE k 0 1\r\nv\r\nEND\r\n"),
    SendsUnread(0, b"\r\nget k\r\n", NodePause::NeedsBytes),
    EndsUnread(0, NodePause::IsDone),
    Told(
        0,
        b"SERVER_ERROR clock fault\r\nSERVER_ERROR clock fault\r\n",
    ),
];

#[test]
fn without_a_reading_a_node_says_so(rt: HostRuntime) {
    let node = play(&rt, rt.alloc(), 8, 4096, &ALL_KINDS);
    is_asked_at(&rt, &node, &[100, 101]);
    let counts = node.counts();
    is(&rt, 20, (counts.hits, counts.misses), (1, 0));
    is(&rt, 21, (counts.stored, counts.failed), (1, 6));
}
