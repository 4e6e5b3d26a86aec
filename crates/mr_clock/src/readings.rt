//! What the clocks of a fleet did so far: how far they were ever apart, and whether one went back.
ghost use Rattle.std.specs.Prelude.{◌≡◌, ◌≤◌, ◌<◌, length, slice_get, IfOk, MatchResult};
ghost use Rattle.mr_clock.specs.Readings.{spread_of};

use crate::error::ClockError;
use std::alloc::AllocError;
use std::marker::Model;

/// One reading for each proxy of a fleet, the greatest difference between two of them that ever stood together,
/// and whether one was ever lowered.
#[derive(Debug, Drop)]
pub struct Readings {
    standing: Vec<u64>,
    spread: u64,
    went_back: bool,
}

impl Model for Readings {
    ghost use Rattle.mr_clock.specs.Readings.{ReadingsView, AreWithin};

    ghost Value = { ReadingsView };

    ghost view = { λ r. record { standing = r.standing.items; spread = r.spread; went_back = r.went_back } };

    ghost invariant = { λ r. AreWithin r.spread r.standing.items };
}

/// The greatest difference between two of the readings; 0 where there are fewer than two.
fn spread_of(readings: &[u64]) -> u64
    ensures { result ≡ spread_of readings.now }
{
    let Some((first, rest)) = readings.split_first() else {
        return 0;
    };
    let mut least = *first;
    let mut greatest = *first;
    for reading in rest {
        least = least.min(*reading);
        greatest = greatest.max(*reading);
    }
    greatest - least
}

impl Readings {
    ghost use Rattle.mr_clock.specs.Readings.{AreWithin, Tick, readings_at_first, readings_after};
    ghost use Rattle.mr_clock.specs.declared.error.ClockError.TheVariants.{NoSuchProxy};

    /// These readings, in seconds since the epoch, by the numbers of the proxies.
    pub fn new(readings: Vec<u64>) -> Readings
        ensures { result ≡ readings_at_first readings.items }
    {
        let spread = spread_of(&readings);
        Readings {
            standing: readings,
            spread,
            went_back: false,
        }
    }

    /// How many proxies there are.
    pub fn len(&self) -> usize
        ensures { result ≡ length self.now.standing }
    {
        self.standing.len()
    }

    /// The reading of a proxy, if there is that proxy.
    pub fn get(&self, proxy: usize) -> Option<u64>
        ensures { result ≡ slice_get self.now.standing proxy }
    {
        self.standing.get(proxy).copied()
    }

    /// Sets the reading of a proxy, or answers NoSuchProxy where there is none. It looks at each reading once.
    pub fn set(&mut self, proxy: usize, reading: u64) -> Result<(), ClockError>
        ensures { MatchResult result
            (λ _. (proxy < length self.old.standing)
            × (self.new ≡ readings_after self.old (record { proxy = proxy; reading = reading })))
            (λ e. (e ≡ NoSuchProxy) × (length self.old.standing ≤ proxy) × (self.new ≡ self.old)) }
    {
        if proxy >= self.standing.len() {
            return Err(ClockError::NoSuchProxy);
        }
        let lowered = reading < self.standing[proxy];
        self.standing[proxy] = reading;
        self.spread = self.spread.max(spread_of(&self.standing));
        self.went_back = self.went_back || lowered;
        Ok(())
    }

    /// The greatest difference between two readings that stood together, at the beginning or after any `set`.
    pub fn spread(&self) -> u64
        ensures spread { result ≡ self.now.spread }
        ensures within { AreWithin result self.now.standing }
    {
        self.spread
    }

    /// Whether any `set` lowered a reading.
    pub fn went_back(&self) -> bool
        ensures { result ≡ self.now.went_back }
    {
        self.went_back
    }

    /// Equal readings, with the same past.
    pub fn copy(&self) -> Result<Readings, AllocError>
        ensures { IfOk result (λ readings. readings ≡ self.now) }
    {
        Ok(Readings {
            standing: self.standing.clone()?,
            spread: self.spread,
            went_back: self.went_back,
        })
    }
}
