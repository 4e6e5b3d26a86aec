//! A pool: the nodes among which keys are divided.
ghost use Rattle.std.specs.Prelude.{◌≡◌, ◌<◌, ◌%◌, ◌↔◌, ℕ, List, length, slice_get, IsTrue, IfOk, Some, Contains};
ghost use Rattle.mr_pools.specs.Pool.{IsPool, AreDistinct, AreApart};

use crate::error::PoolError;
use crate::hash::KeyHash;
use crate::limits::MAX_NODES;
use crate::name::NodeName;
use mr_text::Key;
use std::alloc::AllocError;
use std::marker::Model;

/// The nodes among which keys are divided, in order: 1 to 1,024 names, no two of them equal.
#[derive(Debug, Drop)]
pub struct Pool {
    names: Vec<NodeName>,
}

impl Model for Pool {
    ghost use Rattle.std.specs.Prelude.{ℕ, List};
    ghost use Rattle.mr_pools.specs.Pool.{IsPool};

    ghost Value = { List (List ℕ) };

    ghost view = { λ p. p.names.items };

    ghost invariant = { λ p. IsPool p.names.items };
}

/// Whether the name is among the names.
fn contains(names: &[NodeName], name: &NodeName) -> bool
    ensures { IsTrue result ↔ Contains names.now name.now }
{
    names.contains(name)
}

/// Whether no two of the names are equal.
fn are_distinct(names: &[NodeName]) -> bool
    ensures { IsTrue result ↔ AreDistinct names.now }
{
    for (index, name) in names.iter().enumerate() {
        if contains(&names[..index], name) {
            return false;
        }
    }
    true
}

/// Whether no name stands in both.
pub(crate) fn are_apart(old: &[NodeName], new: &[NodeName]) -> bool
    ensures { IsTrue result ↔ AreApart old.now new.now }
{
    for name in old {
        if contains(new, name) {
            return false;
        }
    }
    true
}

impl Pool {
    ghost use Rattle.mr_pools.specs.Pool.{IsPoolOf};

    /// The pool of these names. Refusals, in this order: EmptyPool, TooManyNodes, RepeatedName.
    pub fn new(names: Vec<NodeName>) -> Result<Pool, PoolError>
        ensures { IsPoolOf names.items result }
    {
        if names.is_empty() {
            return Err(PoolError::EmptyPool);
        }
        if names.len() > MAX_NODES {
            return Err(PoolError::TooManyNodes);
        }
        if !are_distinct(&names) {
            return Err(PoolError::RepeatedName);
        }
        Ok(Pool { names })
    }

    /// How many nodes there are, at least one.
    pub fn len(&self) -> usize
        ensures length { result ≡ length self.now }
        ensures pool { IsPool self.now }
    {
        self.names.len()
    }

    /// The index of the node that keeps a key: the key's hash modulo the number of nodes.
    pub fn pick<H: KeyHash>(&self, hash: &H, key: &Key) -> usize
        ensures place { result ≡ H.spot_of hash.now key.now % length self.now }
        ensures within { result < length self.now }
    {
        hash.spot(key) as usize % self.len()
    }

    /// The name at an index.
    pub fn name(&self, index: usize) -> &NodeName
        requires { index < length self.now }
        ensures { slice_get self.now index ≡ Some result.now }
    {
        &self.names[index]
    }

    /// The names in order.
    pub fn names(&self) -> &[NodeName]
        ensures names { result.now ≡ self.now }
        ensures pool { IsPool self.now }
    {
        self.names.as_slice()
    }

    /// An equal pool.
    pub fn copy(&self) -> Result<Pool, AllocError>
        ensures { IfOk result (λ pool. pool ≡ self.now) }
    {
        let mut names = Vec::new(*self.names.allocator());
        for name in &self.names {
            names.push(name.copy()?)?;
        }
        Ok(Pool { names })
    }

    /// Whether the other pool has the same names in the same order.
    pub fn same_as(&self, other: &Pool) -> bool
        ensures { IsTrue result ↔ (self.now ≡ other.now) }
    {
        self.names() == other.names()
    }
}
