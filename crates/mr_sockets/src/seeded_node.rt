//! A node whose keys fall together for nobody who doesn't know its seed.
ghost use Rattle.std.specs.Prelude.{◌≡◌};
ghost use Rattle.mr_sockets.specs.SeededNode.{IsSeededNode};

use mr_node::{CacheNode, NodeError};
use std::alloc::Global;
use std::hash::RandomState;
use std::marker::Model;
use std::snapshot::Snapshot;

/// A cache whose keys are hashed by a seed, with that seed as contracts see it.
#[derive(Drop)]
pub struct SeededNode {
    cache: CacheNode,
    capacity: usize,
    seed: Snapshot<RandomState>,
}

impl Model for SeededNode {
    ghost use Rattle.mr_sockets.specs.SeededNode.{SeededView};

    ghost Value = { SeededView };

    ghost view = { λ s. record { cache = s.cache; seed = s.seed.value } };

    ghost use Rattle.std.specs.Prelude.{◌≡◌};

    ghost invariant = { λ s. s.capacity ≡ s.cache.capacity };
}

impl SeededNode {
    /// An empty cache whose keys are hashed by this seed, or ZeroCapacity where it could hold nothing.
    pub fn new(alloc: Global, capacity: usize, seed: RandomState) -> Result<SeededNode, NodeError>
        ensures { IsSeededNode capacity seed result }
    {
        let cache = CacheNode::seeded(alloc, capacity, seed)?;
        Ok(SeededNode {
            cache,
            capacity,
            seed: Snapshot::of(&seed),
        })
    }

    /// How many items it holds at most.
    pub fn capacity(&self) -> usize
        ensures { result ≡ self.now.cache.capacity }
    {
        self.capacity
    }

    /// The cache.
    pub fn into_cache(self) -> CacheNode
        ensures { result ≡ self.cache }
    {
        self.cache
    }
}
