//! Pools and routings that tests are made of.
ghost use Rattle.std.specs.Prelude.{◌≡◌, length, IfOk};

use mr_pools::{NamedHash, NodeName, Pool, PoolError, Routing};
use std::alloc::Global;

/// A pool of the nodes of these names.
pub fn pool(alloc: Global, names: &[&[u8]]) -> Result<Pool, PoolError> {
    let mut list = Vec::new(alloc);
    for name in names {
        list.push(NodeName::new(alloc, name)?)?;
    }
    Pool::new(list)
}

/// The routing from 7001 and 7002 to the new pool of these nodes.
pub fn routing(alloc: Global, new: &[&[u8]], hash: NamedHash) -> Result<Routing, PoolError>
    ensures { IfOk result (λ routing. length routing.pools ≡ 2) }
{
    let old = pool(alloc, &[b"7001", b"7002"])?;
    Routing::new(old, pool(alloc, new)?, hash)
}
