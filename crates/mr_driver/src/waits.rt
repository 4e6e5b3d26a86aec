//! How long a loop may wait for events.
ghost use Rattle.std.specs.Prelude.{◌≡◌, ◌≤◌, max, option_map};
ghost use Rattle.std.specs.Duration.{as_nanos};
ghost use Rattle.mr_driver.specs.Waits.{end_by, end_in, late_turns_after, nanos_in, is_overslept_in};

use crate::times::{next_at, until};
use std::time::Duration;

/// How much later than it meant to a loop may wake before it is late, in microseconds.
const MOST_LATE: u64 = 25_000;

/// For how many turns at most a loop that was late has the time count for nothing: within them it hears 65,536 events, and reads 4 MiB of
/// each socket.
const MOST_LATE_TURNS: u64 = 64;

/// What a loop waits for, beside events. Moments are in microseconds.
#[derive(Clone, Copy, Debug)]
pub(crate) struct Waits {
    /// There is something that can be done at once.
    pub(crate) is_busy: bool,
    /// Something ends at some time: a pause, a dial, a leg; or room or memory is wanted, of which no event tells.
    pub(crate) is_timed: bool,
    /// There are clients who mustn't be silent for too long.
    pub(crate) is_bounded: bool,
    /// The time when it begins to wait.
    pub(crate) begin: u64,
    /// When it is looked at the links.
    pub(crate) next_tick: u64,
    /// When it is looked at the clients.
    pub(crate) next_sweep: u64,
}

impl Waits {
    /// Until when the loop may wait. None for as long as nothing happens.
    fn end(&self) -> Option<u64>
        ensures { result ≡ end_in self.now }
    {
        if self.is_busy {
            Some(self.begin)
        } else if self.is_timed {
            Some(self.next_tick)
        } else if self.is_bounded {
            Some(self.next_sweep)
        } else {
            None
        }
    }

    /// The same, of a loop that is to wake at a moment: then at the latest.
    pub(crate) fn by(self, moment: u64) -> Waits
        ensures end { end_in result ≡ Some (end_by moment self) }
        ensures begin { result.begin ≡ self.begin }
        ensures in_time { end_by moment self ≤ max self.begin moment }
    {
        Waits {
            is_busy: self.is_busy,
            is_timed: self.is_timed,
            is_bounded: true,
            begin: self.begin,
            next_tick: self.next_tick.min(moment),
            next_sweep: if self.is_bounded {
                self.next_sweep.min(moment)
            } else {
                moment
            },
        }
    }

    /// How long the loop may wait from now on. None for as long as nothing happens.
    pub(crate) fn patience(&self, now: u64) -> Option<Duration>
        ensures { option_map as_nanos result ≡ nanos_in now self.now }
    {
        match self.end() {
            Some(end) => Some(until(now, end)),
            None => None,
        }
    }

    /// Whether it is so late that the loop itself was.
    pub(crate) fn is_overslept_at(&self, now: u64) -> bool
        ensures { result ≡ is_overslept_in now self.now }
    {
        match self.end() {
            Some(end) => now > next_at(end.max(self.begin), MOST_LATE),
            None => false,
        }
    }
}

/// For how many turns a loop has been late, with this one, where it had been for so many: it becomes so where it was overslept. The
/// second turn is late with the first one, which may have heard of nothing, and further ones are as long as the one before left
/// something to be heard or read at once, but not for ever. 0 where it isn't late.
pub(crate) fn late_turns_after(turns: u64, is_overslept: bool, has_more: bool) -> u64
    ensures { result ≡ late_turns_after turns is_overslept has_more }
{
    if turns == 0 {
        u64::from(is_overslept)
    } else if turns == 1 || (has_more && turns < MOST_LATE_TURNS) {
        turns + 1
    } else {
        0
    }
}
