//! How far the clocks of proxies are apart, as far as a look can tell.
ghost use Rattle.std.specs.Prelude.{◌≡◌, ◌+◌, ◌-◌, ◌*◌, ◌^◌, None};
ghost use Rattle.mr_watch.specs.Spread.{ahead_of, all_ahead, spread_in, near_after};
ghost use Rattle.mr_watch.specs.Walk.{first_seen, seen_with, next_seen, walk};

use crate::finding::Finding;
use crate::look::ProxySeen;
use crate::premises::reading_of;

/// What is added to how far a clock is ahead, so that it isn't below zero.
const SHIFT: u128 = 1 << 64;

/// How far a clock is ahead of the watcher's, in milliseconds, with `SHIFT` added.
#[derive(Clone, Copy, Debug)]
pub(crate) struct Ahead {
    /// At least.
    pub(crate) low: u128,
    /// At most.
    pub(crate) high: u128,
}

/// How far the two clocks are apart that are furthest apart, in milliseconds.
#[derive(Clone, Copy, Debug, PartialEq, Eq)]
pub struct Spread {
    /// At least.
    pub at_least: u128,
    /// At most.
    pub at_most: u128,
}

/// How far a clock is ahead that told this reading at some moment from `asked` to `answered`.
fn ahead_at(reading: u64, asked: u64, answered: u64) -> Ahead
    ensures low { result.low ≡ reading * 1000 + (2 ^ 64 - answered) }
    ensures high { result.high ≡ reading * 1000 + 999 + (2 ^ 64 - asked) }
{
    let told = u128::from(reading) * 1000;
    Ahead {
        low: told + (SHIFT - u128::from(answered)),
        high: told + 999 + (SHIFT - u128::from(asked)),
    }
}

/// How far the clock of a proxy is ahead, where it told what its clock said.
fn ahead_of(proxy: &ProxySeen<'_>) -> Option<Ahead>
    ensures { result ≡ ahead_of proxy.now }
{
    match reading_of(proxy) {
        Some(reading) => Some(ahead_at(reading, proxy.asked, proxy.answered)),
        None => None,
    }
}

/// What was seen of clocks so far.
#[derive(Clone, Copy, Debug)]
pub(crate) struct ClocksSeen {
    least_low: u128,
    greatest_low: u128,
    least_high: u128,
    greatest_high: u128,
    spread: Spread,
}

impl ClocksSeen {
    /// One clock.
    fn first(ahead: Ahead) -> ClocksSeen
        ensures { result ≡ first_seen ahead }
    {
        ClocksSeen {
            least_low: ahead.low,
            greatest_low: ahead.low,
            least_high: ahead.high,
            greatest_high: ahead.high,
            spread: Spread {
                at_least: 0,
                at_most: 0,
            },
        }
    }

    /// One clock more.
    fn with(self, ahead: Ahead) -> ClocksSeen
        ensures { result ≡ seen_with self ahead }
    {
        let above = ahead.low.saturating_sub(self.least_high);
        let below = self.greatest_low.saturating_sub(ahead.high);
        let far_above = ahead.high.saturating_sub(self.least_low);
        let far_below = self.greatest_high.saturating_sub(ahead.low);
        ClocksSeen {
            least_low: self.least_low.min(ahead.low),
            greatest_low: self.greatest_low.max(ahead.low),
            least_high: self.least_high.min(ahead.high),
            greatest_high: self.greatest_high.max(ahead.high),
            spread: Spread {
                at_least: self.spread.at_least.max(above.max(below)),
                at_most: self.spread.at_most.max(far_above.max(far_below)),
            },
        }
    }
}

/// What was seen of clocks, with what one proxy told.
fn next_seen(seen: Option<ClocksSeen>, ahead: Option<Ahead>) -> Option<ClocksSeen>
    ensures { result ≡ next_seen seen ahead }
{
    match (seen, ahead) {
        (seen, None) => seen,
        (None, Some(ahead)) => Some(ClocksSeen::first(ahead)),
        (Some(seen), Some(ahead)) => Some(seen.with(ahead)),
    }
}

/// What was seen of the clocks of these proxies.
fn clocks_of(proxies: &[ProxySeen<'_>]) -> Option<ClocksSeen>
    ensures { result ≡ walk None proxies.now }
{
    let mut seen = None;
    for proxy in proxies {
        seen = next_seen(seen, ahead_of(proxy));
    }
    seen
}

/// How far the clocks of these proxies are apart: the greatest over all pairs of those that told what their clocks said. None where
/// none did.
pub fn spread_of(proxies: &[ProxySeen<'_>]) -> Option<Spread>
    ensures { result ≡ spread_in (all_ahead proxies.now) }
{
    match clocks_of(proxies) {
        Some(seen) => Some(seen.spread),
        None => None,
    }
}

/// Whether no two clocks differ by more than this many seconds: broken where they differ by more at least, and seen to hold where
/// they don't at most.
pub fn near_after(before: Finding, interval: u64, spread: Option<Spread>) -> Finding
    ensures { result ≡ near_after before interval spread }
{
    match spread {
        Some(spread) => {
            let allowed = u128::from(interval) * 1000;
            before.after(spread.at_least > allowed, spread.at_most <= allowed)
        }
        None => before,
    }
}
