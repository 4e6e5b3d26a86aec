//! A count that only contracts see.
ghost use Rattle.std.specs.Prelude.{◌≡◌, ◌+◌};

use std::marker::Model;
use std::snapshot::Snapshot;

/// How often something happened: never, or once more than a count that contracts remember.
#[derive(Drop)]
pub enum Count {
    Zero,
    More(Snapshot<Count>),
}

/// A count that contracts see as a number without a greatest value.
#[derive(Drop)]
pub struct GhostCount {
    count: Count,
}

impl Model for GhostCount {
    ghost use Rattle.std.specs.Prelude.{ℕ};

    ghost Value = { ℕ };

    ghost use Rattle.mr_text.specs.steps.Count.{number_of};

    ghost view = { λ c. number_of c.count };
}

impl GhostCount {
    /// A count of nothing.
    pub fn new() -> GhostCount
        ensures { result ≡ 0 }
    {
        GhostCount { count: Count::Zero }
    }

    /// Counts one more.
    pub fn add_one(&mut self)
        ensures { self.new ≡ self.old + 1 }
    {
        let before = Snapshot::of(&self.count);
        self.count = Count::More(before);
    }
}
