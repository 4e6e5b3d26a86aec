//! A look at a fleet: which services are asked, and in which order.
ghost use Rattle.std.specs.Prelude.{◌≡◌, ◌++◌, All, IfOk, OnOk};
ghost use Rattle.mr_looks.specs.Looking.{HasCountsToldBy, HasLookedAt, all_named, named, node_named, nodes_of_pool, nodes_of_pools};
ghost use Rattle.mr_looks.specs.Posts.{addresses_of};

use crate::posts::{Post, ask_others, ask_proxies, begin_look, node_in};
use mr_pools::{Pool, Routing};
use mr_servers::HostServers;
use mr_watch::{NodeSeen, StatsTold, read_stats};
use std::alloc::{AllocError, Global};
use std::net::{Net, TcpListener, TcpStream};
use std::random::RandomSource;
use std::sync::Wait;
use std::thread::Threads;
use std::time;

/// What a look saw beside what the services themselves told.
#[derive(Debug, Drop)]
pub struct Seen<'c> {
    /// When it began, in milliseconds.
    pub began: u64,
    /// When it ended.
    pub ended: u64,
    /// What the machine's clock said, in seconds since the epoch.
    pub second: u64,
    /// When it said that, in milliseconds.
    pub moment: u64,
    /// The nodes of all pools.
    pub nodes: Vec<NodeSeen<'c>>,
}

/// What a node answers to `stats`.
fn stats_of<
    R: Net<Listener = TcpListener, Stream = TcpStream>
        + Threads
        + Wait
        + time::Clock
        + RandomSource
        + Sync,
>(
    alloc: Global,
    servers: &HostServers<'_, R>,
    name: &str,
) -> Result<Option<StatsTold>, AllocError> {
    match servers.stats_at(alloc, name)? {
        Some(answer) => Ok(read_stats(answer.as_slice())),
        None => Ok(None),
    }
}

/// What this look sees of a node: by its metrics where one of the services is that node, else by its `stats`.
fn node_seen<
    'c,
    R: Net<Listener = TcpListener, Stream = TcpStream>
        + Threads
        + Wait
        + time::Clock
        + RandomSource
        + Sync,
>(
    alloc: Global,
    servers: &HostServers<'_, R>,
    posts: &[Post<'_>],
    pool: u32,
    name: &'c str,
) -> Result<NodeSeen<'c>, AllocError>
    ensures named { IfOk result (λ node. named node ≡ node_named pool name.now) }
    ensures told { IfOk result (HasCountsToldBy posts.now) }
{
    if let Some(told) = node_in(posts, name) {
        return Ok(NodeSeen {
            pool,
            name,
            items: Some(told.items),
            hits: Some(told.hits),
        });
    }
    match stats_of(alloc, servers, name)? {
        Some(told) => Ok(NodeSeen {
            pool,
            name,
            items: Some(told.items),
            hits: Some(told.hits),
        }),
        None => Ok(NodeSeen {
            pool,
            name,
            items: None,
            hits: None,
        }),
    }
}

/// What this look sees of the nodes of a pool, beside those before it.
fn push_pool<
    'c,
    R: Net<Listener = TcpListener, Stream = TcpStream>
        + Threads
        + Wait
        + time::Clock
        + RandomSource
        + Sync,
>(
    alloc: Global,
    servers: &HostServers<'_, R>,
    posts: &[Post<'_>],
    number: u32,
    pool: &'c Pool,
    nodes: &mut Vec<NodeSeen<'c>>,
) -> Result<(), AllocError>
    ensures named { OnOk result (all_named nodes.new.items ≡ all_named nodes.old.items ++ nodes_of_pool number pool.now) }
    ensures told { OnOk result (All (HasCountsToldBy posts.now) nodes.old.items → All (HasCountsToldBy posts.now) nodes.new.items) }
{
    for name in pool.names() {
        nodes.push(node_seen(alloc, servers, posts, number, name.as_str())?)?;
    }
    Ok(())
}

/// What this look sees of the nodes of all pools, in the order of the configuration.
fn nodes_seen<
    'c,
    R: Net<Listener = TcpListener, Stream = TcpStream>
        + Threads
        + Wait
        + time::Clock
        + RandomSource
        + Sync,
>(
    alloc: Global,
    servers: &HostServers<'_, R>,
    posts: &[Post<'_>],
    routing: &'c Routing,
) -> Result<Vec<NodeSeen<'c>>, AllocError>
    ensures named { IfOk result (λ nodes. all_named nodes.items ≡ nodes_of_pools routing.now.pools) }
    ensures told { IfOk result (λ nodes. All (HasCountsToldBy posts.now) nodes.items) }
{
    let mut nodes = Vec::new(alloc);
    for (number, pool) in routing.pools().iter().enumerate() {
        push_pool(alloc, servers, posts, number as u32, pool, &mut nodes)?;
    }
    Ok(nodes)
}

/// Looks at a fleet. First at the nodes: by the metrics of services that aren't known to be proxies, and by `stats`; then at the
/// proxies. So a node held what it told when no proxy's clock said more than that proxy told afterwards.
pub fn look<
    'c,
    R: Net<Listener = TcpListener, Stream = TcpStream>
        + Threads
        + Wait
        + time::Clock
        + RandomSource
        + Sync,
>(
    alloc: Global,
    servers: &HostServers<'_, R>,
    routing: &'c Routing,
    posts: &mut [Post<'_>],
) -> Result<Seen<'c>, AllocError>
    ensures nodes { IfOk result (λ seen. all_named seen.nodes.items ≡ nodes_of_pools routing.now.pools) }
    ensures looked { IfOk result (λ seen. HasLookedAt posts.old seen.nodes.items posts.new) }
    ensures addresses { addresses_of posts.new ≡ addresses_of posts.old }
{
    let began = servers.milliseconds();
    begin_look(posts);
    ask_others(alloc, servers, posts)?;
    let nodes = nodes_seen(alloc, servers, posts, routing)?;
    let second = servers.second();
    let moment = servers.milliseconds();
    ask_proxies(alloc, servers, posts)?;
    Ok(Seen {
        began,
        ended: servers.milliseconds(),
        second,
        moment,
        nodes,
    })
}
