//! The schedule of a chain of migrations.
ghost use Rattle.std.specs.Prelude.{◌≡◌, ◌≢◌, ℕ, ◌+◌, ◌*◌, ◌^◌, ◌<◌, ◌≤◌, ◌↔◌, ◌++◌, length, IsErrOf, IsOk, IfOk, IsTrue};
ghost use Rattle.mr_phases.specs.Schedule.{one_hop, most_hops, start_at, interval_at, least_interval, chain_end, hop_of, phase_of, IsSchedule};

use crate::error::ScheduleError;
use crate::hop::Hop;
use crate::phase_name::PhaseName;
use std::marker::Model;

/// The most migrations in a row.
pub const MAX_HOPS: u32 = 4;

/// What stands behind the last hop.
const NO_HOP: Hop = Hop {
    start: 0,
    interval: 0,
};

/// When each migration of a chain begins, and how long each of its two middle phases lasts. There are one to
/// `MAX_HOPS` of them, and each begins no earlier than the one before it has ended. To a contract a schedule is the
/// list of its migrations, the hops, numbered from 0: hop j moves from pool j to pool j + 1.
#[derive(Clone, Copy, Debug)]
pub struct Schedule {
    hops: [Hop; MAX_HOPS as usize],
    count: usize,
}

impl Model for Schedule {
    ghost use Rattle.std.specs.Prelude.{List, take};
    ghost use Rattle.mr_phases.specs.Schedule.{Hop};
    ghost use Rattle.mr_phases.specs.Filled.{IsFilled};

    ghost Value = { List Hop };

    ghost view = { λ s. take s.count s.hops };

    ghost invariant = { λ s. IsFilled s.hops s.count };

    ghost use Rattle.mr_phases.specs.Fields.{fields_of, fields_back};

    ghost inverse = { fields_of };

    ghost inverse_ok = { fields_back };
}

impl Schedule {
    /// One migration, which begins at `start`, in seconds since the epoch, and whose two middle phases last `interval`
    /// seconds each. It may end at the greatest u64, and no later. ZeroInterval: the interval is 0. TooLate: it ends
    /// later than that.
    pub fn new(start: u64, interval: u64) -> Result<Schedule, ScheduleError>
        ensures zero_interval { IsErrOf result ScheduleError.ZeroInterval ↔ (interval ≡ 0) }
        ensures too_late { IsErrOf result ScheduleError.TooLate
            ↔ ((interval ≢ 0) × (2 ^ 64 ≤ start + 2 * interval)) }
        ensures accepted { IsOk result ↔ ((0 < interval) × (start + 2 * interval < 2 ^ 64)) }
        ensures hop { IfOk result (λ schedule. schedule ≡ one_hop start interval) }
    {
        let hop = new_hop(start, interval)?;
        Ok(Schedule {
            hops: [hop, NO_HOP, NO_HOP, NO_HOP],
            count: 1,
        })
    }

    /// One more migration behind the last, of a start and an interval as in `new`. A refusal hands the same schedule
    /// back beside it. They come in this order: ZeroInterval, TooLate, as in `new`; TooManyHops: there are `MAX_HOPS`
    /// already; TooSoon: the start is before the end of the last.
    pub fn then(self, start: u64, interval: u64) -> Result<Schedule, (ScheduleError, Schedule)>
        ensures zero_interval { IsErrOf result (ScheduleError.ZeroInterval, self) ↔ (interval ≡ 0) }
        ensures too_late { IsErrOf result (ScheduleError.TooLate, self)
            ↔ ((interval ≢ 0) × (2 ^ 64 ≤ start + 2 * interval)) }
        ensures too_many_hops { IsErrOf result (ScheduleError.TooManyHops, self)
            ↔ ((0 < interval) × (start + 2 * interval < 2 ^ 64) × (length self ≡ most_hops)) }
        ensures too_soon { IsErrOf result (ScheduleError.TooSoon, self)
            ↔ ((0 < interval) × (start + 2 * interval < 2 ^ 64) × (length self < most_hops)
            × (start < chain_end self)) }
        ensures accepted { IsOk result
            ↔ ((0 < interval) × (start + 2 * interval < 2 ^ 64) × (length self < most_hops)
            × (chain_end self ≤ start)) }
        ensures hops { IfOk result (λ longer. longer ≡ self ++ one_hop start interval) }
        ensures valid { IsSchedule self }
    {
        let hop = match new_hop(start, interval) {
            Ok(hop) => hop,
            Err(error) => return Err((error, self)),
        };
        if self.hops() == MAX_HOPS {
            return Err((ScheduleError::TooManyHops, self));
        }
        if start < self.end() {
            return Err((ScheduleError::TooSoon, self));
        }
        let mut hops = self.hops;
        hops[self.count] = hop;
        Ok(Schedule {
            hops,
            count: self.count + 1,
        })
    }

    /// How many migrations there are: 1 to `MAX_HOPS`.
    pub fn hops(&self) -> u32
        ensures hops { result ≡ length self.now }
        ensures valid { IsSchedule self.now }
    {
        self.count as u32
    }

    /// The first second of the migration of this number, since the epoch.
    pub fn start(&self, hop: u32) -> u64
        requires { hop < length self.now }
        ensures start { result ≡ start_at self.now hop }
        ensures valid { IsSchedule self.now }
    {
        self.hops[hop as usize].start
    }

    /// How long each of the two middle phases of the migration of this number lasts, in seconds; at least 1.
    pub fn interval(&self, hop: u32) -> u64
        requires { hop < length self.now }
        ensures interval { result ≡ interval_at self.now hop }
        ensures lasts { 0 < result }
        ensures fits { start_at self.now hop + 2 * result < 2 ^ 64 }
        ensures valid { IsSchedule self.now }
    {
        self.hops[hop as usize].interval
    }

    /// How far the clocks of the fleet may differ, in seconds: the least interval of all hops.
    pub fn least_interval(&self) -> u64
        ensures least { result ≡ least_interval self.now }
        ensures valid { IsSchedule self.now }
    {
        let hops = self.as_slice();
        hops.iter()
            .fold(self.interval(0), |least, hop| least.min(hop.interval))
    }

    /// An equal schedule.
    pub fn copy(&self) -> Schedule
        ensures { result ≡ self.now }
    {
        *self
    }

    /// Whether both have the same hops.
    pub fn same_as(&self, other: &Schedule) -> bool
        ensures { IsTrue result ↔ (self.now ≡ other.now) }
    {
        self.as_slice() == other.as_slice()
    }

    /// The number of the hop in force at a reading of a clock, in seconds since the epoch: of the last that has
    /// begun, or 0 where none has.
    pub(crate) fn hop_at(&self, now: u64) -> u32
        ensures hop { result ≡ hop_of self.now now }
        ensures within { result < length self.now }
        ensures valid { IsSchedule self.now }
    {
        let count = self.hops();
        let mut number = 0;
        while number + 1 < count && self.start(number + 1) <= now {
            number += 1;
        }
        number
    }

    /// The phase of the hop in force at a reading of a clock, in seconds since the epoch. Each bound belongs to the
    /// later phase.
    pub(crate) fn phase_at(&self, now: u64) -> PhaseName
        ensures phase { result ≡ phase_of self.now now }
        ensures valid { IsSchedule self.now }
    {
        let hops = self.as_slice();
        hops[self.hop_at(now) as usize].phase(now)
    }

    /// The hops in order.
    fn as_slice(&self) -> &[Hop]
        ensures hops { result.now ≡ self.now }
        ensures valid { IsSchedule self.now }
    {
        &self.hops[..self.count]
    }

    /// The end of the last hop, in seconds since the epoch.
    fn end(&self) -> u64
        ensures { result ≡ chain_end self.now }
    {
        let last = self.hops[self.count - 1];
        last.start + 2 * last.interval
    }
}

/// A migration of this start and this interval, whatever others there are.
fn new_hop(start: u64, interval: u64) -> Result<Hop, ScheduleError>
    ensures zero_interval { IsErrOf result ScheduleError.ZeroInterval ↔ (interval ≡ 0) }
    ensures too_late { IsErrOf result ScheduleError.TooLate ↔ ((interval ≢ 0) × (2 ^ 64 ≤ start + 2 * interval)) }
    ensures accepted { IsOk result ↔ ((0 < interval) × (start + 2 * interval < 2 ^ 64)) }
    ensures hop { IfOk result (λ hop. hop ≡ record { start = start; interval = interval }) }
{
    if interval == 0 {
        return Err(ScheduleError::ZeroInterval);
    }
    let end = u128::from(start) + 2 * u128::from(interval);
    if end > u128::from(u64::MAX) {
        return Err(ScheduleError::TooLate);
    }
    Ok(Hop { start, interval })
}
