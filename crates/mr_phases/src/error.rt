//! Why a schedule is refused.
ghost use Rattle.std.specs.Prelude.{◌≡◌};
ghost use Rattle.mr_phases.specs.ScheduleError.{number_of_refusal};

use thiserror::Error;

/// Why a start and an interval make no schedule, or no further migration of one.
#[derive(Clone, Copy, Debug, PartialEq, Eq, Error)]
pub enum ScheduleError {
    /// The interval is 0 seconds.
    #[error("the interval is 0 seconds; a migration needs at least 1")]
    ZeroInterval,
    /// The end, the start and twice the interval, is above the greatest u64.
    #[error("the migration ends after second 18446744073709551615; start earlier or shorten the interval")]
    TooLate,
    /// The start is before the end of the migration before it: that one's start and twice its interval.
    #[error("the migration starts before the one before it has ended; start no earlier than that one's start plus twice its interval")]
    TooSoon,
    /// There are four migrations already.
    #[error("at most 4 migrations can be in a row; leave out one that is over")]
    TooManyHops,
}

impl ScheduleError {
    /// The refusal's number: 1 to 4.
    pub fn number(&self) -> u8
        ensures { result ≡ number_of_refusal self.now }
    {
        match self {
            ScheduleError::ZeroInterval => 1,
            ScheduleError::TooLate => 2,
            ScheduleError::TooSoon => 3,
            ScheduleError::TooManyHops => 4,
        }
    }
}
