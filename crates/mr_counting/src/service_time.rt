//! How the clock of a service runs, and when the service began by it.
ghost use Rattle.std.specs.Prelude.{◌≡◌, ◌-◌};

use crate::watched_clock::{ClockWatch, WatchedClock};
use mr_clock::Clock;
use mr_metrics::ServiceSnapshot;

/// How the clock of a service runs, and when the service began by it.
pub struct ServiceTime {
    /// How its clock runs, seen by all who read it.
    pub watch: ClockWatch,
    began: Option<u64>,
}

impl Drop for ServiceTime {
    fn drop(self) {
        let Self { watch: _, began: _ } = self;
    }
}

/// What a clock says now, where it says anything.
fn reading_of<K: Clock + Clone>(clock: &K, watch: &ClockWatch) -> Option<u64> {
    let Ok(clock) = clock.clone() else {
        return None;
    };
    WatchedClock::new(clock, watch).now().ok()
}

impl ServiceTime {
    /// A service begins now, by this clock.
    pub fn new<K: Clock + Clone>(clock: &K) -> ServiceTime {
        let watch = ClockWatch::new();
        let began = reading_of(clock, &watch);
        ServiceTime { watch, began }
    }

    /// What is known now of a service to which so many clients came, of whom so many have left, by this clock.
    pub fn snapshot<'a, K: Clock + Clone>(
        &self,
        clock: &K,
        version: &'a str,
        came: u64,
        left: u64,
    ) -> ServiceSnapshot<'a>
        ensures version { result.version.now ≡ version.entry.now }
        ensures connected { result.connected ≡ came - left }
        ensures accepted { result.accepted ≡ came }
    {
        let clock = reading_of(clock, &self.watch);
        ServiceSnapshot {
            version,
            began: self.began,
            connected: came.saturating_sub(left),
            accepted: came,
            clock,
            steps_back: self.watch.steps_back(),
        }
    }
}
