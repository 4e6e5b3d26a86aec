//! A clock of which it is counted how often it goes back.
use mr_clock::{Clock, ClockFault};
use std::marker::Model;
use std::sync::atomic::{AtomicU64, Ordering};

/// How often the clock of a service went back, seen by all who read it.
pub struct ClockWatch {
    latest: AtomicU64,
    steps_back: AtomicU64,
}

impl Drop for ClockWatch {
    fn drop(self) {
        let Self {
            latest: _,
            steps_back: _,
        } = self;
    }
}

impl ClockWatch {
    /// No reading was seen yet.
    pub fn new() -> ClockWatch {
        ClockWatch {
            latest: AtomicU64::new(0),
            steps_back: AtomicU64::new(0),
        }
    }

    /// How often a reading came that was before the one that had come last.
    pub fn steps_back(&self) -> u64 {
        self.steps_back.load(Ordering::SeqCst)
    }

    /// The reading that was seen last, before another one is taken.
    #[inline(always)]
    fn latest(&self) -> u64 {
        self.latest.load(Ordering::SeqCst)
    }

    /// Sees a reading that was taken after this one was seen. Of several who see the same step back one counts it.
    #[inline(always)]
    fn see(&self, before: u64, reading: u64) {
        if reading == before {
            return;
        }
        let first = self
            .latest
            .compare_exchange(before, reading, Ordering::SeqCst, Ordering::SeqCst)
            .is_ok();
        if first && reading < before {
            self.steps_back.fetch_add(1, Ordering::SeqCst);
        }
    }
}

/// A clock whose readings are watched. It gives those of the one within.
pub struct WatchedClock<'a, K: Clock + Clone> {
    clock: K,
    watch: &'a ClockWatch,
}

impl<'a, K: Clock + Clone> Drop for WatchedClock<'a, K> {
    fn drop(self) {
        let Self { clock: _, watch: _ } = self;
    }
}

/// To contracts it is the clock within.
impl<'a, K: Clock + Clone> Model for WatchedClock<'a, K> {
    ghost Value = { K };

    ghost view = { λ c. c.clock };
}

impl<'a, K: Clock + Clone> WatchedClock<'a, K> {
    ghost use Rattle.std.specs.Prelude.{◌≡◌};

    /// This clock, watched there.
    pub fn new(clock: K, watch: &'a ClockWatch) -> WatchedClock<'a, K>
        ensures { result ≡ clock }
    {
        WatchedClock { clock, watch }
    }
}

impl<'a, K: Clock + Clone> Clock for WatchedClock<'a, K> {
    ghost failures = { K.failures };

    ghost reads = { K.reads };

    #[inline(always)]
    fn now(&mut self) -> Result<u64, ClockFault> {
        let before = self.watch.latest();
        let reading = self.clock.now()?;
        self.watch.see(before, reading);
        Ok(reading)
    }
}
