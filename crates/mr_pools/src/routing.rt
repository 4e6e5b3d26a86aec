//! The routing of migrations in a row: their pools by number, and the hash.
ghost use Rattle.std.specs.Prelude.{◌≡◌, ◌+◌, ◌<◌, ◌↔◌, length, slice_get, Some, All, IsTrue, IfOk};
ghost use Rattle.mr_pools.specs.Pool.{AreApart};

use crate::error::PoolError;
use crate::hash::NamedHash;
use crate::limits::MAX_POOLS;
use crate::name::NodeName;
use crate::pool::{Pool, are_apart};
use crate::pools::Pools;
use mr_text::Key;
use std::alloc::AllocError;
use std::marker::Model;

/// The pools of up to four migrations in a row, and the hash that places keys in them. Hop 0 goes from pool 0 to
/// pool 1, hop 1 on to pool 2, and so on. No node stands in two of the pools.
#[derive(Debug, Drop)]
pub struct Routing {
    pools: Pools,
    hash: NamedHash,
}

impl Model for Routing {
    ghost use Rattle.mr_pools.specs.Routing.{RoutingView, IsRouting};
    ghost use Rattle.mr_pools.specs.Pools.{pools_in};

    ghost Value = { RoutingView };

    ghost view = { λ r. record { pools = pools_in r.pools; hash = r.hash } };

    ghost invariant = { λ r. IsRouting (record { pools = pools_in r.pools; hash = r.hash }) };
}

/// Whether none of the names stands in one of the pools.
fn stand_apart(pools: &[Pool], names: &[NodeName]) -> bool
    ensures { IsTrue result ↔ All (λ earlier. AreApart earlier names.now) pools.now }
{
    for earlier in pools {
        if !are_apart(earlier.names(), names) {
            return false;
        }
    }
    true
}

/// Whether both have the same pools in the same order.
fn are_same(ours: &[Pool], theirs: &[Pool]) -> bool
    ensures { IsTrue result ↔ (ours.now ≡ theirs.now) }
{
    if ours.len() != theirs.len() {
        return false;
    }
    for (number, pool) in ours.iter().enumerate() {
        if !pool.same_as(&theirs[number]) {
            return false;
        }
    }
    true
}

impl Routing {
    ghost use Rattle.mr_pools.specs.Routing.{IsRoutingOf, IsLonger, IsRouting, pool_of, place_of};

    /// The routing from the old pool to the new one. SharedName where a node stands in both.
    pub fn new(old: Pool, new: Pool, hash: NamedHash) -> Result<Routing, PoolError>
        ensures { IsRoutingOf old new hash result }
    {
        if !are_apart(old.names(), new.names()) {
            return Err(PoolError::SharedName);
        }
        Ok(Routing {
            pools: Pools::Two([old, new]),
            hash,
        })
    }

    /// The routing that goes on to one more pool, by one more migration. Refusals, in this order: TooManyPools where
    /// five pools are there, SharedName where a node of the pool stands in an earlier one. A refusal hands both back.
    pub fn then(self, pool: Pool) -> Result<Routing, (PoolError, Routing, Pool)>
        ensures { IsLonger self pool result }
    {
        if self.pools().len() == MAX_POOLS {
            return Err((PoolError::TooManyPools, self, pool));
        }
        if !stand_apart(self.pools(), pool.names()) {
            return Err((PoolError::SharedName, self, pool));
        }
        let hash = self.hash;
        Ok(Routing {
            pools: self.pools.then(pool),
            hash,
        })
    }

    /// How many migrations there are, 1 to 4: one less than the pools.
    pub fn hops(&self) -> u32
        ensures hops { result + 1 ≡ length self.now.pools }
        ensures routing { IsRouting self.now }
    {
        self.pools().len() as u32 - 1
    }

    /// The pool that a hop leaves.
    pub fn old_pool(&self, hop: u32) -> &Pool
        requires { hop + 1 < length self.now.pools }
        ensures pool { result.now ≡ pool_of self.now hop }
        ensures routing { IsRouting self.now }
    {
        self.pool(hop as usize)
    }

    /// The pool that a hop goes to.
    pub fn new_pool(&self, hop: u32) -> &Pool
        requires { hop + 1 < length self.now.pools }
        ensures pool { result.now ≡ pool_of self.now (hop + 1) }
        ensures routing { IsRouting self.now }
    {
        self.pool(hop as usize + 1)
    }

    /// The pools, from the one that is left first to the one that takes over last: a pool's number is its index here.
    pub fn pools(&self) -> &[Pool]
        ensures pools { result.now ≡ self.now.pools }
        ensures routing { IsRouting self.now }
    {
        self.pools.as_slice()
    }

    /// The pool of a number: 0 is the one that is left first.
    pub fn pool(&self, number: usize) -> &Pool
        requires { number < length self.now.pools }
        ensures there { slice_get self.now.pools number ≡ Some result.now }
        ensures pool { result.now ≡ pool_of self.now number }
        ensures routing { IsRouting self.now }
    {
        &self.pools()[number]
    }

    /// The hash that places keys.
    pub fn hash(&self) -> NamedHash
        ensures hash { result ≡ self.now.hash }
        ensures routing { IsRouting self.now }
    {
        self.hash
    }

    /// The index, in the pool of a number, of the node that keeps a key.
    pub fn place(&self, number: usize, key: &Key) -> usize
        requires { number < length self.now.pools }
        ensures place { result ≡ place_of self.now.hash (pool_of self.now number) key.now }
        ensures within { result < length (pool_of self.now number) }
    {
        self.pool(number).pick(&self.hash, key)
    }

    /// An equal routing.
    pub fn copy(&self) -> Result<Routing, AllocError>
        ensures { IfOk result (λ routing. routing ≡ self.now) }
    {
        Ok(Routing {
            pools: self.pools.copy()?,
            hash: self.hash,
        })
    }

    /// Whether the other routing has the same pools and the same hash.
    pub fn same_as(&self, other: &Routing) -> bool
        ensures { IsTrue result ↔ (self.now ≡ other.now) }
    {
        are_same(self.pools(), other.pools()) && self.hash == other.hash
    }
}
