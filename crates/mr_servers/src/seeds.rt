//! Seeds that were drawn, which only contracts see.
ghost use Rattle.std.specs.Prelude.{◌≡◌, [], ◌∷◌, ◌++◌};

use std::hash::RandomState;
use std::marker::Model;
use std::snapshot::Snapshot;

/// No seed, or one more behind those that contracts remember.
#[derive(Drop)]
pub(crate) enum Seeds {
    /// Nothing yet.
    Nothing,
    /// One more.
    And(Snapshot<Seeds>, Snapshot<RandomState>),
}

/// Seeds that were drawn, which contracts see as a list and the program doesn't keep.
#[derive(Drop)]
pub(crate) struct GhostSeeds {
    seeds: Seeds,
}

impl Model for GhostSeeds {
    ghost use Rattle.std.specs.Prelude.{List};
    ghost use Rattle.std.specs.declared.random_state.RandomState.{RandomState};
    ghost use Rattle.mr_servers.specs.Seeds.{seeds_of};

    ghost Value = { List RandomState };

    ghost view = { λ s. seeds_of s.seeds };
}

impl GhostSeeds {
    /// None yet.
    pub(crate) fn new() -> GhostSeeds
        ensures { result ≡ [] }
    {
        GhostSeeds {
            seeds: Seeds::Nothing,
        }
    }

    /// One more.
    pub(crate) fn add(&mut self, seed: RandomState)
        ensures { self.new ≡ self.old ++ seed ∷ [] }
    {
        let before = Snapshot::of(&self.seeds);
        self.seeds = Seeds::And(before, Snapshot::of(&seed));
    }
}
