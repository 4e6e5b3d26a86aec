//! When requests are due.
ghost use Rattle.std.specs.Prelude.{◌≡◌, nat_le};
ghost use Rattle.mr_probes.specs.Pace.{pace_after, pace_at};

/// So much of the time that went by without a request is made up for, in microseconds.
const MADE_UP: u64 = 50_000;

/// When requests are due, in microseconds of the canary's clock.
#[derive(Clone, Copy, Debug, PartialEq, Eq)]
pub struct Pace {
    /// How long it is from one to the next.
    pub gap: u64,
    /// When the next one is due.
    pub next: u64,
}

impl Pace {
    /// So many requests a second, and the first one at once. No second has fewer than one, and none more than a million.
    pub(crate) fn new(rate: u64) -> Pace
        ensures { result ≡ pace_at rate }
    {
        Pace {
            gap: (1_000_000 / rate.max(1)).max(1),
            next: 0,
        }
    }

    /// Whether a request is due.
    pub(crate) fn is_due(&self, now: u64) -> bool
        ensures { result ≡ nat_le self.now.next now }
    {
        self.next <= now
    }

    /// A request was issued.
    pub(crate) fn go_on(&mut self, now: u64)
        ensures { self.new ≡ pace_after now self.old }
    {
        self.next = self
            .next
            .saturating_add(self.gap)
            .max(now.saturating_sub(MADE_UP));
    }
}
