//! When each phase of each hop is.
ghost use Rattle.std.specs.Prelude.{◌≡◌, ◌<◌, length, slice_get, Some};
ghost use Rattle.mr_configs.specs.Timeline.{timeline_of, span_before, time_until, TellsPhases};
ghost use Rattle.mr_configs.specs.steps.TimesAt.{old_only_at, new_only_at, times_at};

use crate::config::Config;
use mr_phases::Schedule;
use mr_phases::laws::phase_ranges;
use std::marker::Model;

/// Readings from the first to the last, both of them too, in seconds since the epoch.
#[derive(Clone, Copy, Debug, PartialEq, Eq)]
pub struct Span {
    /// The first reading.
    pub first: u64,
    /// The last one, no earlier.
    pub last: u64,
}

/// When everything goes to the new pool of a hop, in seconds since the epoch.
#[derive(Clone, Copy, Debug, PartialEq, Eq)]
pub enum NewOnlyTime {
    /// Never: the next hop starts where the middle phases of this one end.
    Never,
    /// Until the next hop starts.
    Within(Span),
    /// From this second on: it is the last hop.
    Since(u64),
}

/// The readings of each phase of a hop.
#[derive(Clone, Copy, Debug, PartialEq, Eq)]
pub struct PhaseTimes {
    /// Everything goes to the old pool. None where the hop starts at 0, and for every hop but the first: until it starts
    /// the hop before it is in force.
    pub old_only: Option<Span>,
    /// Gets and sets go to the old pool, deletes to both.
    pub both_read_old: Span,
    /// Gets and sets go to the new pool, deletes to both.
    pub both_read_new: Span,
    /// Everything goes to the new pool.
    pub new_only: NewOnlyTime,
}

/// The readings of each phase of each hop. It takes no memory.
#[derive(Debug, Drop)]
pub struct ChainTimes {
    schedule: Schedule,
}

impl Model for ChainTimes {
    ghost use Rattle.std.specs.Prelude.{List};
    ghost use Rattle.mr_configs.specs.Timeline.{timeline_of};
    ghost use Rattle.mr_configs.specs.declared.times.PhaseTimes.{PhaseTimes};

    ghost Value = { List PhaseTimes };

    ghost view = { λ t. timeline_of t.schedule };
}

#[tactic(auto, using(crate::proofs::TimelineLemmas::entries, crate::proofs::TimelineLemmas::entry_at))]
impl ChainTimes {
    /// How many hops there are: 1 to 4.
    pub fn hops(&self) -> u32
        ensures { result ≡ length self.now }
    {
        self.schedule.hops()
    }

    /// Another of the same times. It takes no memory.
    pub fn copy(&self) -> ChainTimes
        ensures { result ≡ self.now }
    {
        ChainTimes {
            schedule: self.schedule.copy(),
        }
    }

    /// The readings of each phase of the hop of this number.
    pub fn of(&self, hop: u32) -> PhaseTimes
        requires { hop < length self.now }
        ensures { slice_get self.now hop ≡ Some result }
    {
        times_at(self.schedule, hop)
    }
}

/// The time before a hop that starts then.
fn span_before(start: u64) -> Option<Span>
    ensures { result ≡ span_before start }
{
    if start == 0 {
        None
    } else {
        Some(Span {
            first: 0,
            last: start - 1,
        })
    }
}

/// The time before the hop of a number.
fn old_only_at(schedule: Schedule, hop: u32) -> Option<Span>
    requires { hop < length schedule }
    ensures { result ≡ old_only_at schedule hop }
{
    if hop == 0 {
        span_before(schedule.start(0))
    } else {
        None
    }
}

/// The time from the end of a hop's middle phases until the next hop starts.
fn time_until(end: u64, next: u64) -> NewOnlyTime
    ensures { result ≡ time_until end next }
{
    if end < next {
        NewOnlyTime::Within(Span {
            first: end,
            last: next - 1,
        })
    } else {
        NewOnlyTime::Never
    }
}

/// The time from the end of a hop's middle phases on.
fn new_only_at(schedule: Schedule, hop: u32) -> NewOnlyTime
    requires { hop < length schedule }
    ensures { result ≡ new_only_at schedule hop }
{
    let end = schedule.start(hop) + 2 * schedule.interval(hop);
    if hop + 1 < schedule.hops() {
        time_until(end, schedule.start(hop + 1))
    } else {
        NewOnlyTime::Since(end)
    }
}

/// The times of the hop of a number.
fn times_at(schedule: Schedule, hop: u32) -> PhaseTimes
    requires { hop < length schedule }
    ensures { result ≡ times_at schedule hop }
{
    let start = schedule.start(hop);
    let middle = start + schedule.interval(hop);
    let end = middle + schedule.interval(hop);
    PhaseTimes {
        old_only: old_only_at(schedule, hop),
        both_read_old: Span {
            first: start,
            last: middle - 1,
        },
        both_read_new: Span {
            first: middle,
            last: end - 1,
        },
        new_only: new_only_at(schedule, hop),
    }
}

/// The readings of each phase of each hop of a configuration.
#[tactic(auto, using(crate::proofs::TimelineLemmas::entries))]
pub fn timeline(config: &Config) -> ChainTimes
    ensures value { result ≡ timeline_of config.now.schedule }
    ensures hops { length result ≡ length config.now.schedule }
    ensures phases { TellsPhases config.now.schedule result }
{
    phase_ranges();
    ChainTimes {
        schedule: config.schedule(),
    }
}
