//! What the loops of a proxy count together.
ghost use Rattle.std.specs.Prelude.{◌≡◌, IfOk, replicate};
ghost use Rattle.mr_counting.specs.LoopTotals.{nodes_in, no_link, no_totals, nodes_with, with_loop, with_link};

use crate::client_counts::ClientCounts;
use crate::counting::one_more;
use crate::leg_times::LegTimes;
use crate::link_totals::LinkTotals;
use crate::proxy_counts::ProxyCounts;
use mr_pools::Routing;
use std::alloc::{AllocError, Global};
use std::marker::Model;

/// What the loops of a proxy count together. Nodes are numbered pool by pool, in the order of each pool.
#[derive(Drop)]
pub struct LoopTotals {
    loops: u64,
    counts: ProxyCounts,
    clients: ClientCounts,
    nodes: Vec<LinkTotals>,
    times: LegTimes,
}

impl Model for LoopTotals {
    ghost use Rattle.mr_counting.specs.LoopTotals.{TotalsView};

    ghost Value = { TotalsView };

    ghost view = { λ t. record { loops = t.loops; counts = t.counts; clients = t.clients; nodes = t.nodes.items; times = t.times } };
}

/// How many nodes there are, in all pools.
fn nodes_in(routing: &Routing) -> usize
    ensures { result ≡ nodes_in routing.now }
{
    let mut nodes: usize = 0;
    for pool in routing.pools() {
        nodes += pool.len();
    }
    nodes
}

/// So many nodes without a link.
fn unlinked(alloc: Global, count: usize) -> Result<Vec<LinkTotals>, AllocError>
    ensures { IfOk result (λ nodes. nodes.items ≡ replicate count no_link) }
{
    let mut nodes = Vec::with_capacity(alloc, count)?;
    while nodes.len() < count {
        nodes.push(LinkTotals::NONE)?;
    }
    Ok(nodes)
}

/// A link is added to what is counted of the node of a number, where there is one.
fn add_to(nodes: &mut [LinkTotals], number: usize, link: LinkTotals)
    ensures { nodes.new ≡ nodes_with number link nodes.old }
{
    if number < nodes.len() {
        nodes[number] = nodes[number].plus(link);
    }
}

impl LoopTotals {
    /// No loop yet, before the nodes of a routing.
    pub fn new(alloc: Global, routing: &Routing) -> Result<LoopTotals, AllocError>
        ensures { IfOk result (λ totals. totals ≡ no_totals (nodes_in routing.now)) }
    {
        Ok(LoopTotals {
            loops: 0,
            counts: ProxyCounts::NONE,
            clients: ClientCounts::NONE,
            nodes: unlinked(alloc, nodes_in(routing))?,
            times: LegTimes::NONE,
        })
    }

    /// One loop more, by what it counts of requests and of clients.
    pub fn add_loop(&mut self, counts: ProxyCounts, clients: ClientCounts)
        ensures { self.new ≡ with_loop counts clients self.old }
    {
        self.loops = one_more(self.loops);
        self.counts = self.counts.plus(counts);
        self.clients = self.clients.plus(clients);
    }

    /// One link more, to the node of this number. That of a node that there isn't is added to the times alone.
    pub fn add_link(&mut self, number: usize, link: LinkTotals, times: &LegTimes)
        ensures { self.new ≡ with_link number link times.now self.old }
    {
        add_to(&mut self.nodes, number, link);
        self.times.add(times);
    }

    /// How many loops.
    pub fn loops(&self) -> u64
        ensures { result ≡ self.now.loops }
    {
        self.loops
    }

    /// What they count of requests.
    pub fn counts(&self) -> ProxyCounts
        ensures { result ≡ self.now.counts }
    {
        self.counts
    }

    /// What they count of clients.
    pub fn clients(&self) -> ClientCounts
        ensures { result ≡ self.now.clients }
    {
        self.clients
    }

    /// What they count of links, node by node.
    pub fn nodes(&self) -> &[LinkTotals]
        ensures { result.now ≡ self.now.nodes }
    {
        self.nodes.as_slice()
    }

    /// How long legs took.
    pub fn times(&self) -> &LegTimes
        ensures { result.now ≡ self.now.times }
    {
        &self.times
    }
}
