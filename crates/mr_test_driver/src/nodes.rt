//! A node that is served on loops.

use crate::asked::{AskedNode, Misuse};
use mr_driver::{CacheDesk, Doors, Loops, SharedCache, open_node_loops};
use mr_loop::{NodeLoop, ServedCounts};
use mr_node::CacheNode;
use std::alloc::Global;
use std::net::Net;
use std::sync::Wait;

/// A cache of the capacity that was asked for.
pub(crate) fn cache_of(alloc: Global, asked: &AskedNode<'_>) -> Result<SharedCache, Misuse> {
    let capacity = asked.capacity as usize;
    let cache = CacheNode::new(alloc, capacity)?;
    Ok(SharedCache::new(cache, capacity))
}

/// The machines of all loops, over one cache.
fn machines_of<'a, 'r, R: Wait + Sync>(
    rt: &'r R,
    alloc: Global,
    cache: &'a SharedCache,
    asked: &AskedNode<'_>,
) -> Result<Vec<NodeLoop<CacheDesk<'a, 'r, R>>>, Misuse> {
    let mut machines = Vec::new(alloc);
    for _ in 0..asked.loops {
        match NodeLoop::new(alloc, cache.desk(rt), asked.most_unread as usize) {
            Ok(machine) => machines.push(machine)?,
            Err(_) => return Err(Misuse::OutOfMemory),
        }
    }
    Ok(machines)
}

/// The loops of a node over one cache, and their doors.
pub(crate) fn open_node<'a, 'r, R: Net + Wait + Sync>(
    rt: &'r R,
    alloc: Global,
    cache: &'a SharedCache,
    asked: &AskedNode<'_>,
) -> Result<(Loops<NodeLoop<CacheDesk<'a, 'r, R>>>, Doors<ServedCounts>), Misuse> {
    let machines = machines_of(rt, alloc, cache, asked)?;
    Ok(open_node_loops(rt, alloc, machines)?)
}
