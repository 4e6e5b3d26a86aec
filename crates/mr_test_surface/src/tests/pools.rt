//! Names of nodes, pools of them, the hashes that place keys, and routings.
ghost use Rattle.std.specs.Prelude.{◌≡◌, length, IfOk};

use super::text::key;
use mr_pools::{Fnv1a32, KeyHash, NamedHash, NodeName, Pool, PoolError, Routing, SumHash};
use mr_text::Key;
use std::alloc::Global;
use std::test::Fail;

/// The pool of these nodes.
fn pool(alloc: Global, texts: &[&[u8]]) -> Result<Pool, PoolError> {
    let mut names = Vec::new(alloc);
    for text in texts {
        names.push(NodeName::new(alloc, text)?)?;
    }
    Pool::new(names)
}

/// The routing from two nodes to three.
pub(super) fn routing(alloc: Global) -> Result<Routing, PoolError>
    ensures { IfOk result (λ routing. length routing.pools ≡ 2) }
{
    let old = pool(alloc, &[b"7001", b"7002"])?;
    let new = pool(alloc, &[b"7101", b"7102", b"7103"])?;
    Routing::new(old, new, NamedHash::Sum)
}

/// The place of a key in a pool.
fn place_by<H: KeyHash>(pool: &Pool, hash: H, key: &Key) -> usize {
    pool.pick(&hash, key)
}

#[test]
fn hashes_place_a_key(rt: HostRuntime) -> Result<(), Fail> {
    let routing = routing(rt.alloc())?;
    let key = key(rt.alloc())?;
    let by_sum = place_by(routing.new_pool(0), SumHash, &key);
    assert_eq!(rt; by_sum, place_by(routing.new_pool(0), NamedHash::Sum, &key));
    assert_eq!(rt;
        place_by(routing.old_pool(0), Fnv1a32, &key),
        routing_by_fnv(rt.alloc(), &key)?
    );
    Ok(())
}

/// The place of a key in the old pool, where the routing names the other hash.
fn routing_by_fnv(alloc: Global, key: &Key) -> Result<usize, PoolError> {
    Ok(pool(alloc, &[b"7001", b"7002"])?.pick(&NamedHash::Fnv, key))
}
