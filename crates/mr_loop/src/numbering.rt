//! The numbers of the links: the nodes are counted pool by pool.
ghost use Rattle.std.specs.Prelude.{◌≡◌, ◌+◌, ◌≤◌, ◌*◌, length};
ghost use Rattle.mr_loop.specs.Links.{nodes_before, link_of, link_of_key};
ghost use Rattle.mr_loop.specs.LoopView.{nodes_of};
ghost use Rattle.mr_proxy.specs.Sheets.{IsPlaced};

use mr_pools::Routing;
use mr_proxy::LegSheet;
use mr_text::Key;

/// How many nodes the pools before the pool of a number have.
#[inline(always)]
fn nodes_before(routing: &Routing, number: usize) -> usize
    ensures count { result ≡ nodes_before routing.now.pools number }
    ensures few { result ≤ 8192 }
{
    let mut nodes: usize = 0;
    for (index, pool) in routing.pools().iter().enumerate() {
        if index == number {
            return nodes;
        }
        nodes += pool.len();
    }
    nodes
}

/// How many nodes there are.
pub(crate) fn nodes_of(routing: &Routing) -> usize
    ensures { result ≡ nodes_of routing.now }
{
    nodes_before(routing, routing.pools().len())
}

/// The number of the link that a leg goes over.
#[inline(always)]
pub(crate) fn link_of(routing: &Routing, sheet: &LegSheet) -> usize
    ensures { result ≡ link_of routing.now sheet.now }
{
    nodes_before(routing, sheet.pool_number()) + sheet.node as usize
}

/// The number of the link to the node that keeps a key in the pool of a number.
pub(crate) fn link_of_key(routing: &Routing, pool: usize, key: &Key) -> usize
    requires { pool + 1 ≤ length routing.now.pools }
    ensures { result ≡ link_of_key routing.now pool key.now }
{
    let _known = routing.hash();
    nodes_before(routing, pool) + routing.place(pool, key)
}
