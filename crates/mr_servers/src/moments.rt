//! Moments of a clock that never goes back. No contract speaks of them.

use std::time::{Clock, Duration, Instant};

/// The moment now; None where the clock gives no reading.
pub(crate) fn moment_now<R: Clock>(rt: &R) -> Option<Instant> {
    match Instant::now(rt) {
        Ok(now) => Some(now),
        Err(_) => None,
    }
}

/// The moment in so many milliseconds; None where the clock gives no reading.
pub(crate) fn moment_after<R: Clock>(rt: &R, millis: u64) -> Option<Instant> {
    moment_now(rt)?.checked_add(Duration::from_millis(millis))
}

/// How many milliseconds have passed since a moment; None where there is none, or the clock gives no reading.
pub(crate) fn passed_since<R: Clock>(rt: &R, begun: Option<Instant>) -> Option<u64> {
    let passed = moment_now(rt)?
        .saturating_duration_since(begun?)
        .as_millis();
    Some(passed.min(u128::from(u64::MAX)) as u64)
}
