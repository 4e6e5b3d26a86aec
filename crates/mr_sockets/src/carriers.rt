//! The carriers to the nodes of a routing.
ghost use Rattle.std.specs.Prelude.{◌≡◌, IfOk, map};
ghost use Rattle.mr_sockets.specs.Carriers.{carriers_to};
ghost use Rattle.mr_sockets.specs.SocketCarrier.{fresh_carrier};

use crate::socket_carrier::SocketCarrier;
use mr_pools::{Pool, Routing};
use std::alloc::{AllocError, Global};
use std::net::Net;
use std::time::Duration;

/// A carrier to each node of a pool, in order.
fn pool_carriers<N: Net + Copy>(
    net: N,
    alloc: Global,
    pool: &Pool,
    turns: u64,
    wait: Option<Duration>,
) -> Result<Vec<SocketCarrier<N>>, AllocError>
    ensures { IfOk result (λ carriers. carriers.items ≡ map (fresh_carrier turns) pool.now) }
{
    let mut carriers = Vec::new(alloc);
    for name in pool.names() {
        carriers.push(SocketCarrier::within(net, alloc, name, turns, wait)?)?;
    }
    Ok(carriers)
}

/// Carriers to the nodes of a routing, as `DirectCarriers` wants them: a list for each pool, the old one first, with a carrier
/// to each node. None is connected yet. Each makes at most `turns` reads for a leg, and waits for its node so long at a time at
/// most, where that is bounded.
pub fn node_carriers<N: Net + Copy>(
    net: N,
    alloc: Global,
    routing: &Routing,
    turns: u64,
    wait: Option<Duration>,
) -> Result<Vec<Vec<SocketCarrier<N>>>, AllocError>
    ensures { IfOk result (λ pools. map (λ carriers. carriers.items) pools.items ≡ carriers_to turns routing.now.pools) }
{
    let mut pools = Vec::new(alloc);
    for pool in routing.pools() {
        pools.push(pool_carriers(net, alloc, pool, turns, wait)?)?;
    }
    Ok(pools)
}
