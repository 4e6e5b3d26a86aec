//! The pace of a loop: when it looks at its links, and whether it is late.
ghost use Rattle.std.specs.Prelude.{◌≡◌};
ghost use Rattle.mr_driver.specs.Pace.{at_first, is_due_at, is_late_in, looked_at, woken};

use crate::times::{next_at, tick_of};
use crate::waits::late_turns_after;

/// When a loop looks at its links, and whether it is late. Moments are in microseconds.
#[derive(Clone, Copy, Debug)]
pub(crate) struct Pace {
    /// When it is looked at the links.
    pub(crate) next_tick: u64,
    /// For how many turns the loop has been late, so that the time doesn't count; 0 where it isn't.
    pub(crate) late_turns: u64,
}

impl Pace {
    /// It is looked at once, and the loop isn't late.
    pub(crate) fn new() -> Pace
        ensures { result ≡ at_first }
    {
        Pace {
            next_tick: 0,
            late_turns: 0,
        }
    }

    /// Whether the loop is late.
    pub(crate) fn is_late(&self) -> bool
        ensures { result ≡ is_late_in self.now }
    {
        self.late_turns > 0
    }

    /// It woke, which may have been too late, and there may be more to be heard or read at once.
    pub(crate) fn wake(&mut self, is_overslept: bool, has_more: bool)
        ensures { self.new ≡ woken is_overslept has_more self.old }
    {
        self.late_turns = late_turns_after(self.late_turns, is_overslept, has_more);
    }

    /// Whether it is time to look at the links, whose dials have this bound. Then the next look is a tick later.
    pub(crate) fn is_due(&mut self, bound: u64, now: u64) -> bool
        ensures due { result ≡ is_due_at now self.old }
        ensures next { self.new ≡ looked_at bound now self.old }
    {
        if self.is_late() || now < self.next_tick {
            return false;
        }
        self.next_tick = next_at(now, tick_of(bound));
        true
    }
}
