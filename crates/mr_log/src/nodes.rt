//! The nodes by number: they are counted from 0, pool by pool.
ghost use Rattle.std.specs.Prelude.{◌≡◌, None, Some, slice_get, MatchOption};
ghost use Rattle.mr_log.specs.Nodes.{nodes_of};

use mr_pools::Pool;

/// A node, as a line names it.
#[derive(Clone, Copy, Debug)]
pub(crate) struct Node<'a> {
    /// The number of its pool.
    pub(crate) pool: usize,
    /// Its name.
    pub(crate) name: &'a str,
}

/// The node of a number, if there is one.
pub(crate) fn node_at(pools: &[Pool], number: usize) -> Option<Node<'_>>
    ensures { MatchOption result (slice_get (nodes_of pools.now) number ≡ None)
        (λ node. slice_get (nodes_of pools.now) number ≡ Some (node.pool, node.name.now)) }
{
    let mut left = number;
    for (index, pool) in pools.iter().enumerate() {
        if left < pool.len() {
            let name = pool.name(left).as_str();
            return Some(Node { pool: index, name });
        }
        left -= pool.len();
    }
    None
}
