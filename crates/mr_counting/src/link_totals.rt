//! What the loops of a proxy count of their links to a node.
ghost use Rattle.std.specs.Prelude.{◌≡◌};
ghost use Rattle.mr_counting.specs.Sums.{link_sum};

use crate::counting::sum_of;

/// What loops count of their links to a node.
#[derive(Clone, Copy, Debug, PartialEq, Eq)]
pub struct LinkTotals {
    /// How many have a connection.
    pub up: u64,
    /// How many legs were carried.
    pub carried: u64,
    /// How many legs were lost.
    pub lost: u64,
    /// How many connections were there and are gone.
    pub breaks: u64,
    /// How many connections were begun.
    pub dials: u64,
}

impl LinkTotals {
    /// No link.
    pub const NONE: LinkTotals = LinkTotals {
        up: 0,
        carried: 0,
        lost: 0,
        breaks: 0,
        dials: 0,
    };

    /// Both together.
    pub fn plus(self, more: LinkTotals) -> LinkTotals
        ensures { result ≡ link_sum self more }
    {
        LinkTotals {
            up: sum_of(self.up, more.up),
            carried: sum_of(self.carried, more.carried),
            lost: sum_of(self.lost, more.lost),
            breaks: sum_of(self.breaks, more.breaks),
            dials: sum_of(self.dials, more.dials),
        }
    }
}
