//! What a clock is, whoever keeps it: a machine, a list or a test.
ghost use Rattle.std.specs.Prelude.{◌≡◌, ◌+◌, ℕ, Option, Some, None, MatchResult};

use crate::error::ClockFault;

/// A source of readings, whose contract tells how often it failed.
pub trait Clock {
    /// How often a reading failed.
    ghost failures: { Self → ℕ };

    /// What one call of `now` does: the clock before it, the reading or none at a fault, and the clock after it.
    /// Code that is generic over a clock can show it in no other way than by that one call.
    ghost reads: { Self → Option ℕ → Self → Type 0 };

    /// The whole seconds since the epoch, as this clock has them.
    fn now(&mut self) -> Result<u64, ClockFault>
        ensures reads { MatchResult result
            (λ reading. reads self.old (Some reading) self.new)
            (λ _. reads self.old None self.new) }
        ensures failures { MatchResult result
            (λ _. failures self.new ≡ failures self.old)
            (λ _. failures self.new ≡ failures self.old + 1) };
}
