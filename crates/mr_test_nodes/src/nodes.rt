//! Caches of both pools, and carriers to them.
use crate::or_no_memory;
use mr_clock::FixedClock;
use mr_desks::{LocalCarrier, SharedNode};
use mr_node::CacheNode;
use std::alloc::{AllocError, Global};
use std::sync::Wait;

/// The caches of both pools.
#[derive(Drop)]
pub struct Nodes {
    /// Those of the old pool.
    pub old: Vec<SharedNode>,
    /// Those of the new pool.
    pub new: Vec<SharedNode>,
}

/// So many caches, each with room for 16 items.
fn caches(alloc: Global, count: usize) -> Result<Vec<SharedNode>, AllocError> {
    let mut caches = Vec::new(alloc);
    for _ in 0..count {
        caches.push(SharedNode::new(or_no_memory(CacheNode::new(alloc, 16))?))?;
    }
    Ok(caches)
}

/// Two caches of the old pool, and so many of the new one.
pub fn make_nodes(alloc: Global, new: usize) -> Result<Nodes, AllocError> {
    let old = caches(alloc, 2)?;
    Ok(Nodes {
        old,
        new: caches(alloc, new)?,
    })
}

/// A carrier to a cache.
pub type ToNode<'x, R> = LocalCarrier<'x, FixedClock, R>;

/// A carrier to each of the caches of one pool, whose own clocks show 999.
pub fn carriers_to<'x, R: Wait>(
    rt: &'x R,
    alloc: Global,
    nodes: &'x [SharedNode],
) -> Result<Vec<ToNode<'x, R>>, AllocError> {
    let mut carriers = Vec::new(alloc);
    for node in nodes {
        carriers.push(LocalCarrier::new(rt, node, FixedClock(999)))?;
    }
    Ok(carriers)
}

/// A carrier to each of the caches of both pools.
pub fn carriers_to_all<'x, R: Wait>(
    rt: &'x R,
    alloc: Global,
    nodes: &'x Nodes,
) -> Result<Vec<Vec<ToNode<'x, R>>>, AllocError> {
    let mut pools = Vec::new(alloc);
    pools.push(carriers_to(rt, alloc, &nodes.old)?)?;
    pools.push(carriers_to(rt, alloc, &nodes.new)?)?;
    Ok(pools)
}
