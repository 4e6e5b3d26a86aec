//! The sides of a migration, and the kinds of requests that go to them.
ghost use Rattle.std.specs.Prelude.{◌≡◌, Some};
ghost use Rattle.mr_phases.specs.SideText.{side_text};

use std::fmt;

/// A side of a migration: the pool that it leaves, or the one that it moves to.
#[derive(Clone, Copy, Debug, PartialEq, Eq, Hash)]
pub enum Side {
    /// The pool that the migration leaves.
    Old,
    /// The pool that the migration moves to.
    New,
}

impl Side {
    ghost use Rattle.mr_phases.specs.Pools.{pool_number};

    /// The printed name: `old` or `new`.
    pub fn as_str(self) -> &'static str
        ensures { result.now ≡ side_text self }
    {
        match self {
            Side::Old => "old",
            Side::New => "new",
        }
    }

    /// The number of the side's pool at a hop, both counted from 0: a hop leaves the pool of its own number, and
    /// moves to the next.
    pub fn pool_number(self, hop: u32) -> usize
        ensures { result ≡ pool_number hop self }
    {
        match self {
            Side::Old => hop as usize,
            Side::New => hop as usize + 1,
        }
    }
}

impl fmt::Display for Side {
    ghost output = { λ s. Some (side_text s) };

    fn fmt<W: fmt::Write>(&self, f: &mut fmt::Formatter<W>) -> fmt::Result {
        f.write_str(self.as_str())
    }
}

/// What a request does at a pool, as far as its sides depend on it.
#[derive(Clone, Copy, Debug, PartialEq, Eq, Hash)]
pub enum RequestKind {
    /// A get, which reads.
    Get,
    /// A set, which goes where a get reads.
    Set,
    /// A delete, which in the two middle phases goes to both sides.
    Delete,
}
