//! One migration of a chain.
ghost use Rattle.std.specs.Prelude.{◌≡◌, ◌+◌, ◌*◌, ◌<◌, ◌^◌};
ghost use Rattle.mr_phases.specs.Schedule.{phase_in};

use crate::phase_name::PhaseName;

/// One migration: when it begins, and how long each of its two middle phases lasts.
#[derive(Clone, Copy, Debug, PartialEq, Eq)]
pub(crate) struct Hop {
    /// The first second, since the epoch.
    pub(crate) start: u64,
    /// How long each of the two middle phases lasts, in seconds.
    pub(crate) interval: u64,
}

impl Hop {
    /// Where a reading stands, in seconds since the epoch: each bound belongs to the later phase.
    pub(crate) fn phase(&self, now: u64) -> PhaseName
        requires { self.now.start + 2 * self.now.interval < 2 ^ 64 }
        ensures { result ≡ phase_in self.now now }
    {
        if now < self.start {
            PhaseName::OldOnly
        } else if now < self.start + self.interval {
            PhaseName::BothReadOld
        } else if now < self.start + 2 * self.interval {
            PhaseName::BothReadNew
        } else {
            PhaseName::NewOnly
        }
    }
}
