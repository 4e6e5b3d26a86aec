//! How many requests were issued through a desk by one session.
ghost use Rattle.std.specs.Prelude.{◌≡◌, ◌+◌, ◌<◌, ◌^◌, ◌-◌, nat_le};

use std::marker::Model;

/// How many requests one session issued through its desk. Only a desk makes and raises one.
#[derive(Debug, Drop)]
pub struct Share {
    count: u64,
}

impl Model for Share {
    ghost use Rattle.std.specs.Prelude.{ℕ};

    ghost Value = { ℕ };

    ghost view = { λ s. s.count };
}

impl Share {
    /// The share of a session that issued nothing yet.
    pub(crate) fn new() -> Share
        ensures { result ≡ 0 }
    {
        Share { count: 0 }
    }

    /// How many requests were issued.
    pub fn count(&self) -> u64
        ensures { result ≡ self.now }
    {
        self.count
    }

    /// Whether no further request can be counted.
    pub(crate) fn is_spent(&self) -> bool
        ensures { result ≡ nat_le (2 ^ 64 - 1) self.now }
    {
        self.count == u64::MAX
    }

    /// Counts one request more.
    pub(crate) fn raise(&mut self)
        requires { self.old < 2 ^ 64 - 1 }
        ensures { self.new ≡ self.old + 1 }
    {
        self.count += 1;
    }
}
