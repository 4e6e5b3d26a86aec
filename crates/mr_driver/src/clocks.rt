//! The clocks of a loop: one for what takes time, and one for the phases.

use mr_clock::{Clock, SystemClock};
use mr_counting::{ClockWatch, WatchedClock};
use std::time;
use std::time::Instant;

/// A clock that never goes back, by which links and clients are timed, and the machine's time, by which phases are told.
pub(crate) struct Clocks<'a, R: time::Clock> {
    rt: &'a R,
    begun: Option<Instant>,
    phases: WatchedClock<'a, SystemClock<'a, R>>,
    watch: &'a ClockWatch,
}

impl<'a, R: time::Clock> Drop for Clocks<'a, R> {
    fn drop(self) {
        let Self {
            rt: _,
            begun: _,
            phases: _,
            watch: _,
        } = self;
    }
}

impl<'a, R: time::Clock> Clocks<'a, R> {
    /// The first clock begins at its first reading. The other one is watched there.
    pub(crate) fn new(rt: &'a R, watch: &'a ClockWatch) -> Clocks<'a, R> {
        Clocks {
            rt,
            begun: None,
            phases: WatchedClock::new(SystemClock::new(rt), watch),
            watch,
        }
    }

    /// How many microseconds have passed since the first reading, this one maybe. None where the clock gives none.
    pub(crate) fn microseconds(&mut self) -> Option<u64> {
        let Ok(now) = Instant::now(self.rt) else {
            return None;
        };
        let begun = match self.begun {
            Some(begun) => begun,
            None => now,
        };
        self.begun = Some(begun);
        let passed = now.saturating_duration_since(begun).as_micros();
        Some(passed.min(u128::from(u64::MAX)) as u64)
    }

    /// The seconds since the epoch, by which phases are told. None where there is no reading.
    pub(crate) fn reading(&mut self) -> Option<u64> {
        match self.phases.now() {
            Ok(seconds) => Some(seconds),
            Err(_) => None,
        }
    }

    /// How often the clock of phases went back, as all have seen who read it.
    pub(crate) fn steps_back(&self) -> u64 {
        self.watch.steps_back()
    }
}
