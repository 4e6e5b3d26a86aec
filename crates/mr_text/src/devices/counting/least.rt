//! The least of some numbers, which only contracts see.
ghost use Rattle.std.specs.Prelude.{◌≡◌, None};
ghost use Rattle.mr_text.specs.Source.{least_with};

use std::marker::Model;
use std::snapshot::Snapshot;

/// Numbers that went by: none, or one more after those that contracts remember.
#[derive(Drop)]
pub enum Least {
    Unmet,
    Met(Snapshot<Least>, Snapshot<usize>),
}

/// The least of the numbers that went by, which contracts see and the program doesn't keep.
#[derive(Drop)]
pub struct GhostLeast {
    least: Least,
}

impl Model for GhostLeast {
    ghost use Rattle.std.specs.Prelude.{ℕ, Option};

    ghost Value = { Option ℕ };

    ghost use Rattle.mr_text.specs.steps.Least.{least_of};

    ghost view = { λ g. least_of g.least };
}

impl GhostLeast {
    /// No number yet.
    pub fn new() -> GhostLeast
        ensures { result ≡ None }
    {
        GhostLeast {
            least: Least::Unmet,
        }
    }

    /// One more number.
    pub fn meet(&mut self, number: usize)
        ensures { self.new ≡ least_with self.old number }
    {
        let before = Snapshot::of(&self.least);
        self.least = Least::Met(before, Snapshot::of(&number));
    }
}
