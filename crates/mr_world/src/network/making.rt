//! A fleet as it is made of its setup.
ghost use Rattle.std.specs.Prelude.{◌≡◌, ◌↔◌, ◌⊎◌, ◌^◌, ◌<◌, pos, [], ◌∷◌, ◌++◌, length, map, fold, All, IsTrue, IfSome, IfOk, IfErr};
ghost use Rattle.mr_node.specs.declared.command.NodeCommand.TheVariants.{Set};
ghost use Rattle.mr_proxy.specs.ProxyView.{fresh_proxy};
ghost use Rattle.mr_proxy.specs.Sheets.{HaveAsManyHops};
ghost use Rattle.mr_proxy.specs.Sound.{IsSound};
ghost use Rattle.mr_proxy.specs.declared.world_error.WorldError.TheVariants.{NoSuchNode, OutOfMemory};
ghost use Rattle.mr_world.specs.Headline.{IsPlan};
ghost use Rattle.mr_world.specs.Setup.{ChainsMatch, HasHomes, CanBeMade, RefusesSetup, Begins, HasNamedNode, NamesNode, IsNamed, with_pool, with_routing, nodes_of, hold, held_entry, proxies_from};
ghost use Rattle.mr_world.specs.Positions.{node_number};
ghost use Rattle.mr_clock.specs.Readings.{readings_at_first};
ghost use Rattle.mr_world.specs.Tracked.{numbers_of};

use crate::network::Network;
use crate::nodes::Nodes;
use crate::numbers::{NodeNumbers, PoolNumbers};
use crate::setup::{HeldItem, ProxySetup, Setup};
use crate::terms::Terms;
use mr_clock::Readings;
use mr_history::{Author, Entry, History};
use mr_node::NodeCommand;
use mr_pools::{NodeName, Pool, Routing};
use mr_proxy::{ProxyCore, WorldError};
use std::alloc::{AllocError, Global};

/// Whether the pool of that number has a node of this name.
fn has_node(routing: &Routing, pool: usize, name: &NodeName) -> bool
    ensures { IsTrue result ↔ HasNamedNode routing.now pool name.now }
{
    pool < routing.pools().len() && routing.pool(pool).names().contains(name)
}

/// Whether a routing has a node of this name.
fn names_node(routing: &Routing, name: &NodeName) -> bool
    ensures { IsTrue result ↔ NamesNode routing.now name.now }
{
    for pool in 0..routing.pools().len() {
        if has_node(routing, pool, name) {
            return true;
        }
    }
    false
}

/// Whether some proxy's routing has a node of this name.
fn is_named(proxies: &[ProxySetup], name: &NodeName) -> bool
    ensures { IsTrue result ↔ IsNamed proxies.now name.now }
{
    for proxy in proxies {
        if names_node(&proxy.routing, name) {
            return true;
        }
    }
    false
}

/// Whether some proxy's routing has a node of this name. It is looked up among all nodes, or where there was no memory for
/// them, among the names of each routing.
fn is_housed(nodes: Option<&Nodes>, setup: &Setup, name: &NodeName) -> bool
    requires { IfSome nodes (λ nodes. nodes.now ≡ nodes_of setup.now.capacity setup.now.proxies) }
    ensures { IsTrue result ↔ IsNamed setup.now.proxies name.now }
{
    match nodes {
        Some(nodes) => nodes.find(name).is_some(),
        None => is_named(setup.proxies(), name),
    }
}

/// Whether a proxy's routing has the pools of the hops of its schedule, and no more.
fn chain_matches(proxy: &ProxySetup) -> bool
    ensures { IsTrue result ↔ HaveAsManyHops proxy.now.routing proxy.now.schedule }
{
    proxy.routing.hops() == proxy.schedule.hops()
}

/// Whether each proxy's does.
fn chains_match(proxies: &[ProxySetup]) -> bool
    ensures { IsTrue result ↔ ChainsMatch proxies.now }
{
    for proxy in proxies {
        if !chain_matches(proxy) {
            return false;
        }
    }
    true
}

/// Whether there is a node for each item that is held, which could hold something.
fn has_homes(nodes: Option<&Nodes>, setup: &Setup) -> bool
    requires { IfSome nodes (λ nodes. nodes.now ≡ nodes_of setup.now.capacity setup.now.proxies) }
    ensures { IsTrue result ↔ HasHomes setup.now }
{
    if setup.capacity() == 0 && !setup.proxies().is_empty() {
        return false;
    }
    for item in setup.held() {
        if !is_housed(nodes, setup, &item.node) {
            return false;
        }
    }
    true
}

/// Adds the nodes of a pool.
fn add_pool(nodes: &mut Nodes, capacity: usize, pool: &Pool) -> Result<(), AllocError>
    ensures { IfOk result (λ _. nodes.new ≡ with_pool capacity nodes.old pool.now) }
{
    for name in pool.names() {
        nodes.add(capacity, name)?;
    }
    Ok(())
}

/// Adds the nodes of a routing.
fn add_routing(nodes: &mut Nodes, capacity: usize, routing: &Routing) -> Result<(), AllocError>
    ensures { IfOk result (λ _. nodes.new ≡ with_routing capacity nodes.old routing.now) }
{
    for pool in routing.pools() {
        add_pool(nodes, capacity, pool)?;
    }
    Ok(())
}

/// The nodes of all routings, empty.
fn empty_nodes(alloc: Global, setup: &Setup) -> Result<Nodes, AllocError>
    ensures { IfOk result (λ nodes. nodes ≡ nodes_of setup.now.capacity setup.now.proxies) }
{
    let mut nodes = Nodes::new(alloc);
    for proxy in setup.proxies() {
        add_routing(&mut nodes, setup.capacity(), &proxy.routing)?;
    }
    Ok(nodes)
}

/// The nodes of a setup, empty, or NoSuchNode where an item has no home.
fn nodes_of(alloc: Global, setup: &Setup) -> Result<Nodes, WorldError>
    ensures made { IfOk result
        (λ nodes. HasHomes setup.now × (nodes ≡ nodes_of setup.now.capacity setup.now.proxies)) }
    ensures refused { IfErr result
        (λ e. ((e ≡ NoSuchNode) × ¬ HasHomes setup.now) ⊎ ((e ≡ OutOfMemory) × HasHomes setup.now)) }
{
    let nodes = empty_nodes(alloc, setup).ok();
    if !has_homes(nodes.as_ref(), setup) {
        return Err(WorldError::NoSuchNode);
    }
    nodes.ok_or(WorldError::OutOfMemory)
}

/// What the history says of an item that is held.
fn entry_of(item: &HeldItem) -> Result<Entry, AllocError>
    ensures { IfOk result (λ entry. entry ≡ held_entry item.now) }
{
    Ok(Entry::Stored {
        by: Author::Beginning,
        key: item.key.copy()?,
        flags: item.flags,
        block: item.block.copy()?,
    })
}

/// The command that sets an item that is held.
fn command_of(item: HeldItem) -> NodeCommand
    ensures { result ≡ Set item.key item.flags (pos 0) item.block }
{
    let HeldItem {
        node: _node,
        key,
        flags,
        block,
    } = item;
    NodeCommand::Set {
        key,
        flags,
        exptime: 0,
        block,
    }
}

/// The item's node holds it.
fn hold_item(nodes: &mut Nodes, item: HeldItem) -> Result<(), AllocError>
    ensures { IfOk result (λ _. nodes.new ≡ hold nodes.old item) }
{
    let Some(number) = nodes.find(&item.node) else {
        return Ok(());
    };
    drop(nodes.perform(number, 0, command_of(item))?);
    Ok(())
}

/// The history says that an item is held.
fn record(history: &mut History, item: &HeldItem) -> Result<(), WorldError>
    ensures history { IfOk result (λ _. history.new.entries ≡ history.old.entries ++ held_entry item.now ∷ []) }
    ensures memory { IfErr result (λ e. e ≡ OutOfMemory) }
{
    history.reserve(1)?;
    history.push(entry_of(item)?);
    Ok(())
}

/// The item's node holds it, and the history says so.
fn begin_with(nodes: &mut Nodes, history: &mut History, item: HeldItem) -> Result<(), WorldError>
    ensures nodes { IfOk result (λ _. nodes.new ≡ hold nodes.old item) }
    ensures history { IfOk result (λ _. history.new.entries ≡ history.old.entries ++ held_entry item ∷ []) }
    ensures memory { IfErr result (λ e. e ≡ OutOfMemory) }
{
    record(history, &item)?;
    hold_item(nodes, item)?;
    Ok(())
}

/// The nodes hold the items in order, and the history says so.
fn hold_items(alloc: Global, nodes: &mut Nodes, items: Vec<HeldItem>) -> Result<History, WorldError>
    ensures nodes { IfOk result (λ _. nodes.new ≡ fold hold nodes.old items.items) }
    ensures history { IfOk result (λ history. history.entries ≡ map held_entry items.items) }
    ensures memory { IfErr result (λ e. e ≡ OutOfMemory) }
{
    let mut history = History::new(alloc)?;
    for item in items {
        begin_with(nodes, &mut history, item)?;
    }
    Ok(history)
}

/// The numbers of the nodes of a pool.
fn numbers_in(alloc: Global, nodes: &Nodes, pool: &Pool) -> Result<PoolNumbers, AllocError>
    ensures { IfOk result (λ numbers. numbers ≡ map (node_number nodes.now) pool.now) }
{
    let mut numbers = Vec::with_capacity(alloc, pool.len())?;
    for name in pool.names() {
        numbers.push(nodes.number_of(name))?;
    }
    Ok(PoolNumbers::new(numbers))
}

/// The numbers of the nodes of a routing, pool by pool.
fn numbers_by(alloc: Global, nodes: &Nodes, routing: &Routing) -> Result<NodeNumbers, AllocError>
    ensures { IfOk result (λ numbers. numbers ≡ map (λ pool. map (node_number nodes.now) pool) routing.now.pools) }
{
    let mut pools = Vec::with_capacity(alloc, routing.pools().len())?;
    for pool in routing.pools() {
        let numbers = numbers_in(alloc, nodes, pool)?;
        pools.push(numbers)?;
    }
    Ok(NodeNumbers::new(pools))
}

/// The numbers of the nodes that each proxy's routing names.
fn numbers_of(
    alloc: Global,
    nodes: &Nodes,
    proxies: &Vec<ProxyCore>,
) -> Result<Vec<NodeNumbers>, AllocError>
    ensures { IfOk result (λ numbers. numbers.items ≡ numbers_of nodes.now proxies.now.items) }
{
    let mut numbers = Vec::with_capacity(alloc, proxies.len())?;
    for proxy in proxies {
        let named = numbers_by(alloc, nodes, proxy.routing())?;
        numbers.push(named)?;
    }
    Ok(numbers)
}

/// The first reading of each proxy's clock.
fn readings_of(alloc: Global, proxies: &[ProxySetup]) -> Result<Readings, AllocError>
    ensures { IfOk result (λ readings. readings ≡ readings_at_first (map (λ proxy. proxy.reading) proxies.now)) }
{
    let mut readings = Vec::with_capacity(alloc, proxies.len())?;
    for proxy in proxies {
        readings.push(proxy.reading)?;
    }
    Ok(Readings::new(readings))
}

/// That a proxy is sound, as its type keeps.
fn is_sound(core: &ProxyCore)
    ensures { IsSound core.now }
{
    let _none = core.outstanding();
}

/// A proxy that accepted no request yet.
fn core_of(alloc: Global, number: u32, proxy: ProxySetup) -> ProxyCore
    requires { HaveAsManyHops proxy.routing proxy.schedule }
    ensures core { result ≡ fresh_proxy number 0 proxy.routing proxy.schedule proxy.room }
    ensures sound { IsSound result }
    ensures plan { IsPlan result.routing result.schedule }
{
    let ProxySetup {
        routing,
        schedule,
        room,
        reading: _,
    } = proxy;
    let core = ProxyCore::new(alloc, number, 0, routing, schedule, room);
    is_sound(&core);
    core
}

/// The proxies, none of which accepted a request yet.
fn cores_of(alloc: Global, proxies: Vec<ProxySetup>) -> Result<Vec<ProxyCore>, AllocError>
    requires few { length proxies.items < 2 ^ 32 }
    requires chains { ChainsMatch proxies.items }
    ensures proxies { IfOk result (λ cores. cores.items ≡ proxies_from 0 proxies.items) }
    ensures sound { IfOk result (λ cores. All IsSound cores.items) }
    ensures plans { IfOk result (λ cores. All (λ core. IsPlan core.routing core.schedule) cores.items) }
{
    let mut cores = Vec::with_capacity(alloc, proxies.len())?;
    let mut number = 0;
    for proxy in proxies {
        cores.push(core_of(alloc, number, proxy))?;
        number += 1;
    }
    Ok(cores)
}

impl Network {
    /// The fleet of a setup. Refusals, in this order: HopsDiffer, NoSuchNode, OutOfMemory.
    pub(crate) fn new(alloc: Global, setup: Setup) -> Result<Network, WorldError>
        requires { length setup.proxies < 2 ^ 32 }
        ensures begins { IfOk result (λ network. CanBeMade setup × Begins setup network.world) }
        ensures sound { IfOk result (λ network. All IsSound network.world.proxies) }
        ensures plans { IfOk result
            (λ network. All (λ proxy. IsPlan proxy.routing proxy.schedule) network.world.proxies) }
        ensures numbers { IfOk result
            (λ network. network.numbers ≡ numbers_of network.world.nodes network.world.proxies) }
        ensures refused { IfErr result (RefusesSetup setup) }
    {
        if !chains_match(setup.proxies()) {
            return Err(WorldError::HopsDiffer);
        }
        let mut nodes = nodes_of(alloc, &setup)?;
        let terms = Terms::of(alloc, &setup)?;
        let (proxies, held) = setup.into_parts();
        let history = hold_items(alloc, &mut nodes, held)?;
        let readings = readings_of(alloc, &proxies)?;
        let proxies = cores_of(alloc, proxies)?;
        let numbers = numbers_of(alloc, &nodes, &proxies)?;
        Ok(Network {
            readings,
            proxies,
            numbers,
            nodes,
            sent: Vec::new(alloc),
            replies: Vec::new(alloc),
            history,
            terms,
        })
    }
}
