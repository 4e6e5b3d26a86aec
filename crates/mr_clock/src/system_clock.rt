//! The machine's time as a clock.
ghost use Rattle.std.specs.Prelude.{◌≡◌, ◌+◌, ◌/◌, ◌<◌, ◌^◌, Some, None, IfOk, MatchResult};
ghost use Rattle.std.specs.Time.{system_time_nanos};
ghost use Rattle.mr_clock.specs.SystemClock.{ReadsMachine};

use crate::{Clock, ClockFault};
use mr_text::GhostCount;
use std::alloc::AllocError;
use std::marker::Model;
use std::time;
use std::time::{SystemTime, UNIX_EPOCH};

/// A clock that reads the machine's time, in whole seconds since the epoch. It fails where the machine gives no time, or
/// one before the epoch, and may give a reading again afterwards.
pub struct SystemClock<'a, R: time::Clock> {
    rt: &'a R,
    failures: GhostCount,
}

impl<'a, R: time::Clock> Drop for SystemClock<'a, R> {
    fn drop(self) {
        let Self { rt: _, failures: _ } = self;
    }
}

impl<'a, R: time::Clock> Model for SystemClock<'a, R> {
    ghost use Rattle.std.specs.Prelude.{ℕ};

    ghost Value = { ℕ };

    ghost view = { λ c. c.failures };
}

impl<'a, R: time::Clock> SystemClock<'a, R> {
    /// The clock of this machine, which hasn't failed yet.
    pub fn new(rt: &'a R) -> SystemClock<'a, R>
        ensures { result ≡ 0 }
    {
        SystemClock {
            rt,
            failures: GhostCount::new(),
        }
    }
}

impl<'a, R: time::Clock> Clock for SystemClock<'a, R> {
    ghost failures = { λ c. c };

    ghost reads = { ReadsMachine };

    fn now(&mut self) -> Result<u64, ClockFault> {
        match seconds_now(self.rt) {
            Ok(seconds) => Ok(seconds),
            Err(ClockFault) => {
                self.failures.add_one();
                Err(ClockFault)
            }
        }
    }
}

/// A clone is another clock of the same machine, which hasn't failed yet. It takes no memory.
impl<'a, R: time::Clock> Clone for SystemClock<'a, R> {
    ghost use Rattle.std.specs.Prelude.{◌≡◌, ⊤};

    ghost is_clone = { λ _ clone. clone ≡ 0 };

    ghost is_infallible = { λ _. ⊤ };

    fn clone(&self) -> Result<SystemClock<'a, R>, AllocError> {
        Ok(SystemClock::new(self.rt))
    }
}

/// The machine's time in whole seconds since the epoch.
fn seconds_now<R: time::Clock>(rt: &R) -> Result<u64, ClockFault>
    ensures { IfOk result (λ seconds. seconds < 2 ^ 63) }
{
    match SystemTime::now(rt) {
        Ok(time) => seconds_to(time),
        Err(_) => Err(ClockFault),
    }
}

/// The whole seconds from the epoch to a time. No time of std is before the epoch.
fn seconds_to(time: SystemTime) -> Result<u64, ClockFault>
    ensures { IfOk result (λ seconds. seconds ≡ system_time_nanos time / 1000000000) }
{
    match time.duration_since(UNIX_EPOCH) {
        Ok(duration) => Ok(duration.as_secs()),
        Err(_) => Err(ClockFault),
    }
}
