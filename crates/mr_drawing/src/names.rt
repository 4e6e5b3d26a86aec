//! The names of a fleet's nodes, each once: the lanes of nodes stand in this order.
ghost use Rattle.std.specs.Prelude.{◌≡◌, position, bytes_eq, OnOk, IfOk};
ghost use Rattle.mr_drawing.specs.Names.{with_name, with_pool, with_routing, names_of, node_lane};

use mr_pools::{NodeName, Pool, Routing};
use mr_world::ProxySetup;
use std::alloc::{AllocError, Global};

/// Where the name stands.
fn place_of(names: &[NodeName], name: &NodeName) -> Option<usize>
    ensures { result ≡ position (λ other. bytes_eq other name.now) names.now }
{
    names
        .iter()
        .position(|other| other.as_bytes() == name.as_bytes())
}

/// The lane of the node of this name, or how many lanes there are where none has it.
pub(crate) fn node_lane(names: &[NodeName], name: &NodeName) -> usize
    ensures { result ≡ node_lane names.now name.now }
{
    match place_of(names, name) {
        Some(lane) => lane,
        None => names.len(),
    }
}

/// Adds a name that isn't there yet.
fn add_name(names: &mut Vec<NodeName>, name: &NodeName) -> Result<(), AllocError>
    ensures { OnOk result (names.new.items ≡ with_name names.old.items name.now) }
{
    if node_lane(names.as_slice(), name) < names.len() {
        return Ok(());
    }
    names.push(name.copy()?)?;
    Ok(())
}

/// Adds the names of a pool.
fn add_pool(names: &mut Vec<NodeName>, pool: &Pool) -> Result<(), AllocError>
    ensures { OnOk result (names.new.items ≡ with_pool names.old.items pool.now) }
{
    for name in pool.names() {
        add_name(names, name)?;
    }
    Ok(())
}

/// Adds the names of a routing, pool by pool.
fn add_routing(names: &mut Vec<NodeName>, routing: &Routing) -> Result<(), AllocError>
    ensures { OnOk result (names.new.items ≡ with_routing names.old.items routing.now) }
{
    for pool in routing.pools() {
        add_pool(names, pool)?;
    }
    Ok(())
}

/// The names of all nodes, each once, in the order of their first appearance: proxy by proxy, the pools of each in order.
/// That is the order of the nodes' numbers in a fleet.
pub fn node_names(alloc: Global, proxies: &[ProxySetup]) -> Result<Vec<NodeName>, AllocError>
    ensures { IfOk result (λ names. names.items ≡ names_of proxies.now) }
{
    let mut names = Vec::new(alloc);
    for proxy in proxies {
        add_routing(&mut names, &proxy.routing)?;
    }
    Ok(names)
}
