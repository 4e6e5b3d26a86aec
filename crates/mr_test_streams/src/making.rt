//! Machines as they are at the beginning, and after a restart.
use crate::bounds::Bounds;
use mr_loop::{NodeLoop, ProxyLoop};
use mr_node::{CacheNode, NodeCommand, Perform};
use mr_pools::{NodeName, Routing};
use mr_proxy::ProxyCore;
use mr_world::{ProxySetup, Setup};
use std::alloc::Global;
use std::test::Fail;

/// A proxy's loop, with places for its clients, whose links are down.
pub fn proxy_loop(
    alloc: Global,
    bounds: Bounds,
    number: u32,
    incarnation: u64,
    setup: &ProxySetup,
) -> Result<ProxyLoop, Fail> {
    let routing = setup.routing.copy()?;
    let schedule = setup.schedule;
    if routing.hops() != schedule.hops() {
        return Err(Fail::from("a routing has other pools than its schedule has hops"));
    }
    let core = ProxyCore::new(alloc, number, incarnation, routing, schedule, setup.room);
    let mut machine = ProxyLoop::new(alloc, core, bounds.limits)?;
    for _ in 0..bounds.places {
        machine.add_place()?;
    }
    Ok(machine)
}

/// A node's loop without clients, over a cache that holds nothing.
pub fn node_loop(
    alloc: Global,
    bounds: Bounds,
    capacity: usize,
) -> Result<NodeLoop<CacheNode>, Fail> {
    over(alloc, bounds, CacheNode::new(alloc, capacity)?)
}

/// A node's loop without clients, over this cache.
fn over(alloc: Global, bounds: Bounds, cache: CacheNode) -> Result<NodeLoop<CacheNode>, Fail> {
    match NodeLoop::new(alloc, cache, bounds.most_unread) {
        Ok(machine) => Ok(machine),
        Err(_) => Err(Fail::from("there is no memory for a node")),
    }
}

/// The loop of a node that holds what the setup says.
pub fn first_loop(
    alloc: Global,
    bounds: Bounds,
    setup: &Setup,
    name: &NodeName,
) -> Result<NodeLoop<CacheNode>, Fail> {
    let mut cache = CacheNode::new(alloc, setup.capacity())?;
    for item in setup.held() {
        if item.node.as_bytes() == name.as_bytes() {
            let command = NodeCommand::Set {
                key: item.key.copy()?,
                flags: item.flags,
                exptime: 0,
                block: item.block.copy()?,
            };
            let _ = cache.perform(0, command)?;
        }
    }
    over(alloc, bounds, cache)
}

/// The name of the node to which a link goes: the nodes are counted pool by pool.
pub fn name_at(routing: &Routing, link: usize) -> Option<&NodeName> {
    let mut before: usize = 0;
    for pool in routing.pools() {
        if let Some(name) = pool.names().get(link.saturating_sub(before)) {
            return Some(name);
        }
        before = before.saturating_add(pool.names().len());
    }
    None
}
