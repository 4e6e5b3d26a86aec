//! What loops count of their clients, each count since a loop began and as far as 64 bits go.
ghost use Rattle.std.specs.Prelude.{◌≡◌};
ghost use Rattle.mr_counting.specs.ClientCounts.{held_once};
ghost use Rattle.mr_counting.specs.Counting.{one_more};
ghost use Rattle.mr_counting.specs.Sums.{clients_sum};

use crate::counting::{one_more, sum_of};

/// What is counted of the clients of a loop, or of those of several together.
#[derive(Clone, Copy, Debug, PartialEq, Eq)]
pub struct ClientCounts {
    /// How often a client came to a place of the loop.
    pub came: u64,
    /// How often one left its place.
    pub left: u64,
    /// How many requests were held back for want of room, of a place in the queue of a link, or of memory: each once, however
    /// often it was tried.
    pub held_back: u64,
}

impl ClientCounts {
    /// None came.
    pub const NONE: ClientCounts = ClientCounts {
        came: 0,
        left: 0,
        held_back: 0,
    };

    /// A client came.
    pub fn add_coming(&mut self)
        ensures { self.new ≡ record self.old { came = one_more self.old.came } }
    {
        self.came = one_more(self.came);
    }

    /// A client left.
    pub fn add_leaving(&mut self)
        ensures { self.new ≡ record self.old { left = one_more self.old.left } }
    {
        self.left = one_more(self.left);
    }

    /// What stands first of a client is held back. It counts unless it was held back before.
    pub fn add_held(&mut self, waits: bool)
        ensures { self.new ≡ held_once waits self.old }
    {
        if !waits {
            self.held_back = one_more(self.held_back);
        }
    }

    /// Both together.
    pub fn plus(self, more: ClientCounts) -> ClientCounts
        ensures { result ≡ clients_sum self more }
    {
        ClientCounts {
            came: sum_of(self.came, more.came),
            left: sum_of(self.left, more.left),
            held_back: sum_of(self.held_back, more.held_back),
        }
    }
}
