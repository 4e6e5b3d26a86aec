//! The numbers of the nodes that a routing names, so that a message is sent without a search.
ghost use Rattle.std.specs.Prelude.{◌≡◌, ◌<◌, [], length, slice_index_or, slice_get, Some};

use std::marker::Model;

/// The numbers of the nodes of one pool, in its order.
#[derive(Drop)]
pub(crate) struct PoolNumbers {
    numbers: Vec<usize>,
}

impl Model for PoolNumbers {
    ghost use Rattle.std.specs.Prelude.{ℕ, List};

    ghost Value = { List ℕ };

    ghost view = { λ n. n.numbers.items };
}

impl PoolNumbers {
    /// These numbers.
    pub(crate) fn new(numbers: Vec<usize>) -> PoolNumbers
        ensures { result ≡ numbers.items }
    {
        PoolNumbers { numbers }
    }

    /// The number at an index.
    fn number(&self, index: usize) -> usize
        requires { index < length self.now }
        ensures { slice_get self.now index ≡ Some result }
    {
        self.numbers[index]
    }
}

/// The numbers of the nodes that a routing names, pool by pool.
#[derive(Drop)]
pub(crate) struct NodeNumbers {
    pools: Vec<PoolNumbers>,
}

impl Model for NodeNumbers {
    ghost use Rattle.std.specs.Prelude.{ℕ, List};

    ghost Value = { List (List ℕ) };

    ghost view = { λ n. n.pools.items };
}

impl NodeNumbers {
    /// These numbers, of the pools in order.
    pub(crate) fn new(pools: Vec<PoolNumbers>) -> NodeNumbers
        ensures { result ≡ pools.items }
    {
        NodeNumbers { pools }
    }

    /// The number of the node at an index of a pool.
    pub(crate) fn number(&self, pool: usize, index: u32) -> usize
        requires pool { pool < length self.now }
        requires index { index < length (slice_index_or self.now pool []) }
        ensures { slice_get (slice_index_or self.now pool []) index ≡ Some result }
    {
        self.pools[pool].number(index as usize)
    }
}
