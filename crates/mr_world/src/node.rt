//! A node of a fleet.

use mr_node::CacheNode;
use mr_pools::NodeName;

/// A node of a fleet.
#[derive(Drop)]
pub(crate) struct Node {
    /// Its name, which no other node has.
    pub(crate) name: NodeName,
    /// What it keeps.
    pub(crate) cache: CacheNode,
}
