//! A proxy that is served on loops.
ghost use Rattle.std.specs.Prelude.{◌≡◌, length, IfOk};

use crate::asked::{AskedProxy, Misuse};
use mr_driver::{Doors, LoopReport, Loops, bound_of, open_loops};
use mr_loop::{Limits, ProxyLoop};
use mr_phases::Schedule;
use mr_pools::{NamedHash, NodeName, Pool, Routing};
use mr_proxy::ProxyCore;
use mr_sockets::node_addresses;
use std::alloc::Global;
use std::net::Net;

/// How many requests of a client may be begun that it wasn't told of.
const MOST_BEGUN: usize = 64;

/// The pool of the nodes whose names stand in a word.
fn pool_of(alloc: Global, word: &str) -> Result<Pool, Misuse> {
    let mut names = Vec::new(alloc);
    for name in word.split(',') {
        names.push(NodeName::new(alloc, name.as_bytes())?)?;
    }
    Ok(Pool::new(names)?)
}

/// Where keys lie.
fn routing_of(alloc: Global, asked: &AskedProxy<'_>) -> Result<Routing, Misuse>
    ensures { IfOk result (λ routing. length routing.pools ≡ 2) }
{
    let old = pool_of(alloc, asked.old)?;
    let new = pool_of(alloc, asked.new)?;
    Ok(Routing::new(old, new, NamedHash::Fnv)?)
}

/// The machine of one loop, whose proxy has this number.
fn machine_of(alloc: Global, number: u32, asked: &AskedProxy<'_>) -> Result<ProxyLoop, Misuse> {
    let routing = routing_of(alloc, asked)?;
    let schedule = Schedule::new(asked.start, asked.interval)?;
    let core = ProxyCore::new(alloc, number, 0, routing, schedule, asked.room);
    let limits = Limits {
        most_legs: asked.most_legs as usize,
        most_unread: asked.most_unread as usize,
        most_begun: MOST_BEGUN,
        leg_timeout: bound_of(asked.leg_millis),
    };
    Ok(ProxyLoop::new(alloc, core, limits)?)
}

/// The machines of all loops.
fn machines_of(alloc: Global, asked: &AskedProxy<'_>) -> Result<Vec<ProxyLoop>, Misuse> {
    let mut machines = Vec::new(alloc);
    for number in 0..asked.loops {
        machines.push(machine_of(alloc, number, asked)?)?;
    }
    Ok(machines)
}

/// The loops of a proxy, whose nodes are dialled, and their doors.
pub(crate) fn open_proxy<R: Net>(
    rt: &R,
    alloc: Global,
    asked: &AskedProxy<'_>,
) -> Result<(Loops<ProxyLoop>, Doors<LoopReport>), Misuse> {
    let nodes = node_addresses(alloc, &routing_of(alloc, asked)?)?;
    let machines = machines_of(alloc, asked)?;
    Ok(open_loops(rt, alloc, machines, nodes.as_slice())?)
}
