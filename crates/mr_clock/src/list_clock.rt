//! A clock that follows a list, so that a test can say when a phase changes and when a reading fails.
ghost use Rattle.std.specs.Prelude.{◌≡◌, ◌+◌, IfOk, MatchResult};

use crate::clock::Clock;
use crate::error::ClockFault;
use mr_text::GhostCount;
use std::alloc::AllocError;
use std::marker::Model;
use std::snapshot::Snapshot;

/// How often a clock had failed when it was made. Only contracts see it.
#[derive(Drop)]
pub(crate) enum Earlier {
    /// It wasn't copied.
    Never,
    /// As often as the clock had that it is a copy of: before that one was made, and since then.
    Copied(Snapshot<Earlier>, Snapshot<GhostCount>),
}

/// A clock that gives the members of a list in order, `None` as a fault, and then its last member for good.
/// Without members it always fails.
#[derive(Drop)]
pub struct ListClock {
    readings: Vec<Option<u64>>,
    next: usize,
    earlier: Earlier,
    failures: GhostCount,
}

impl Model for ListClock {
    ghost use Rattle.std.specs.Prelude.{◌+◌, drop};
    ghost use Rattle.mr_clock.specs.ListClock.{ClockList};
    ghost use Rattle.mr_clock.specs.steps.Earlier.{failures_before};

    ghost Value = { ClockList };

    ghost view = { λ c. record { left = drop c.next c.readings.items; failures = failures_before c.earlier + c.failures } };
}

impl ListClock {
    ghost use Rattle.std.specs.Prelude.{◌≡◌};

    /// A clock of these readings, in seconds since the epoch.
    pub fn new(readings: Vec<Option<u64>>) -> ListClock
        ensures left { result.left ≡ readings.items }
        ensures failures { result.failures ≡ 0 }
    {
        ListClock {
            readings,
            next: 0,
            earlier: Earlier::Never,
            failures: GhostCount::new(),
        }
    }

    /// An equal clock, which gives what is left to give, and has failed as often.
    pub fn copy(&self) -> Result<ListClock, AllocError>
        ensures { IfOk result (λ clock. clock ≡ self.now) }
    {
        Ok(ListClock {
            readings: self.readings.clone()?,
            next: self.next,
            earlier: Earlier::Copied(Snapshot::of(&self.earlier), Snapshot::of(&self.failures)),
            failures: GhostCount::new(),
        })
    }
}

impl Clock for ListClock {
    ghost use Rattle.mr_clock.specs.ListClock.{GivesNext, first_reading, left_after};

    ghost failures = { λ c. c.failures };

    ghost reads = { GivesNext };

    fn now(&mut self) -> Result<u64, ClockFault>
        ensures reading { MatchResult result
            (λ reading. first_reading self.old.left ≡ Some reading)
            (λ _. first_reading self.old.left ≡ None) }
        ensures left { self.new.left ≡ left_after self.old.left }
        ensures failures { MatchResult result
            (λ _. self.new.failures ≡ self.old.failures)
            (λ _. self.new.failures ≡ self.old.failures + 1) }
    {
        let reading = self.readings.get(self.next).copied().flatten();
        if self.readings.len().saturating_sub(self.next) > 1 {
            self.next += 1;
        }
        match reading {
            Some(seconds) => Ok(seconds),
            None => {
                self.failures.add_one();
                Err(ClockFault)
            }
        }
    }
}
