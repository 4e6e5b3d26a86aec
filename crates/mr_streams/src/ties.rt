//! That the machines that run are those of the streams, where their contracts don't say it in the streams' words.
ghost use Rattle.std.specs.Prelude.{◌<◌, length, IfOk};
ghost use Rattle.mr_loop.specs.node.NodeView.{NodeBytes, NodeEnds};
ghost use Rattle.mr_streams.specs.StreamsView.{node_does};

use mr_loop::{NodeLoop, NodePause};
use mr_node::CacheNode;
use std::alloc::AllocError;

/// Bytes of a connection come to a node's loop over its cache: it serves them as a node of the streams does. For want of memory
/// for the bytes nothing happens.
pub fn serve_bytes(
    node: &mut NodeLoop<CacheNode>,
    place: usize,
    reading: u64,
    piece: &[u8],
) -> Result<NodePause, AllocError>
    requires { place < length node.old.clients }
    ensures { IfOk result (λ pause. NodeBytes node_does place reading piece.now node.old pause node.new) }
{
    node.on_client_bytes(place, reading, piece)
}

/// A node's loop over its cache is told that a connection ends: it serves what is left as a node of the streams does.
pub fn serve_end(node: &mut NodeLoop<CacheNode>, place: usize, reading: u64) -> NodePause
    requires { place < length node.old.clients }
    ensures { NodeEnds node_does place reading node.old result node.new }
{
    node.on_client_ended(place, reading)
}
