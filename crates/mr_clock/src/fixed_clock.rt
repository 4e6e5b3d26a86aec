//! A clock that stands still, for tests and for planning at one moment.
ghost use Rattle.std.specs.Prelude.{◌≡◌, Option, Some};

use crate::clock::Clock;
use crate::error::ClockFault;

/// A clock that stands still, at so many seconds since the epoch. It never fails.
#[derive(Clone, Copy, Debug, PartialEq, Eq)]
pub struct FixedClock(pub u64);

impl Clock for FixedClock {
    ghost failures = { λ _. 0 };

    ghost reads = { λ old reading new. (reading ≡ Some old.0) × (new ≡ old) };

    fn now(&mut self) -> Result<u64, ClockFault>
        ensures reading { result ≡ Ok self.old.0 }
        ensures same { self.new ≡ self.old }
    {
        Ok(self.0)
    }
}
