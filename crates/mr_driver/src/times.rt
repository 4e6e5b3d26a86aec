//! How long things take, in microseconds.
ghost use Rattle.std.specs.Prelude.{◌≡◌};
ghost use Rattle.std.specs.Duration.{as_nanos};
ghost use Rattle.mr_driver.specs.Times.{bound_of, pause_after, sweep_of, tick_of, next_at, has_passed, nanos_until};

use std::time::Duration;

/// How long a node isn't dialled after its link broke for the first time.
pub const LEAST_PAUSE: u64 = 50_000;

/// How long a node isn't dialled at most. A link that stood for as long is taken for a good one.
pub const MOST_PAUSE: u64 = 2_000_000;

/// After how long it is looked at the latest whether a leg, a dial or a pause is over.
pub const MOST_TICK: u64 = 25_000;

/// After how long it is looked at the earliest.
pub const LEAST_TICK: u64 = 1_000;

/// After how long it is looked at the latest whether a client was silent for too long.
const MOST_SWEEP: u64 = 1_000_000;

/// A bound of so many milliseconds, of which 0 is none.
pub fn bound_of(millis: u64) -> u64
    ensures { result ≡ bound_of millis }
{
    if millis == 0 {
        u64::MAX
    } else {
        millis.saturating_mul(1_000)
    }
}

/// The pause after a link has ended that stood for so long, where the one before it was this long: twice that, but at least
/// `LEAST_PAUSE` and at most `MOST_PAUSE`; and `LEAST_PAUSE` after a link that stood for `MOST_PAUSE`.
pub fn next_pause(pause: u64, stood: u64) -> u64
    ensures { result ≡ pause_after pause stood }
{
    if stood >= MOST_PAUSE {
        LEAST_PAUSE
    } else if pause >= MOST_PAUSE / 2 {
        MOST_PAUSE
    } else {
        (pause * 2).max(LEAST_PAUSE)
    }
}

/// How often it is looked whether something is over whose bound is this: eight times within the bound, but each `MOST_TICK` at
/// least, and each `LEAST_TICK` at most.
pub fn tick_of(bound: u64) -> u64
    ensures { result ≡ tick_of bound }
{
    (bound / 8).clamp(LEAST_TICK, MOST_TICK)
}

/// How often it is looked whether a client was silent for longer than a bound: eight times within it, but each `MOST_SWEEP` at
/// least.
pub(crate) fn sweep_of(bound: u64) -> u64
    ensures { result ≡ sweep_of bound }
{
    (bound / 8).min(MOST_SWEEP)
}

/// The moment that is so much later.
pub(crate) fn next_at(now: u64, span: u64) -> u64
    ensures { result ≡ next_at now span }
{
    now.saturating_add(span)
}

/// Whether more than a bound has passed since a moment.
pub(crate) fn has_passed(bound: u64, since: u64, now: u64) -> bool
    ensures { result ≡ has_passed bound since now }
{
    now.saturating_sub(since) > bound
}

/// How long it is until a moment, which may be past.
pub(crate) fn until(now: u64, moment: u64) -> Duration
    ensures { as_nanos result ≡ nanos_until now moment }
{
    Duration::from_micros(moment.saturating_sub(now))
}
