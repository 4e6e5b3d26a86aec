//! What is found of the premises after a look, and when a fleet has migrated.
ghost use Rattle.std.specs.Prelude.{◌≡◌};
ghost use Rattle.std.specs.List.{list_any};
ghost use Rattle.mr_watch.specs.Judging.{findings_after, tells_last, has_ever_told, is_not_last, are_last};

use crate::finding::Findings;
use crate::look::{Look, ProxySeen};
use crate::premises::{empty_after, forward_after, has_told, same_after};
use crate::spread::{near_after, spread_of};
use mr_phases::{PhaseName, Schedule};

/// What is found of the premises after a look, where a look before may have seen these proxies, the watcher's configuration has this
/// digest, and its route this schedule.
pub fn findings_after(
    before: Findings,
    earlier: &[ProxySeen<'_>],
    look: &Look<'_>,
    expected: &[u8],
    schedule: &Schedule,
) -> Findings
    ensures { result ≡ findings_after before earlier.now look.now expected.now schedule.now }
{
    let spread = spread_of(look.proxies);
    Findings {
        same: same_after(before.same, expected, look.proxies),
        empty: empty_after(before.empty, schedule, look.proxies, look.nodes),
        near: near_after(before.near, schedule.least_interval(), spread),
        forward: forward_after(before.forward, earlier, look.proxies),
    }
}

/// Whether it answered, and told that it is in the last phase of the last hop.
fn is_last(proxy: &ProxySeen<'_>, schedule: &Schedule) -> bool
    ensures { result ≡ tells_last schedule.now proxy.now.told }
{
    match &proxy.told {
        Some(told) => {
            let last = u64::from(schedule.hops() - 1);
            told.place.phase == PhaseName::NewOnly && told.place.hop == last
        }
        None => false,
    }
}

/// Whether it answered, at this look or at an earlier one.
fn has_ever_told(proxy: &ProxySeen<'_>) -> bool
    ensures { result ≡ has_ever_told proxy.now }
{
    proxy.known || proxy.told.is_some()
}

/// Whether it answered once, and doesn't tell now that it is in the last phase of the last hop.
fn is_not_last(proxy: &ProxySeen<'_>, schedule: &Schedule) -> bool
    ensures { result ≡ is_not_last schedule.now proxy.now }
{
    has_ever_told(proxy) && !is_last(proxy, schedule)
}

/// Whether there is one that answered once, and doesn't tell now that it is in the last phase of the last hop.
fn any_not_last(proxies: &[ProxySeen<'_>], schedule: &Schedule) -> bool
    ensures { result ≡ list_any (is_not_last schedule.now) proxies.now }
{
    proxies.iter().any(|proxy| is_not_last(proxy, schedule))
}

/// Whether a proxy answered, and each that ever did is in the last phase of the last hop, by what it tells now. Addresses that never
/// told what a proxy tells are passed over.
pub fn all_in_last_phase(look: &Look<'_>, schedule: &Schedule) -> bool
    ensures { result ≡ are_last schedule.now look.now.proxies.now }
{
    has_told(look.proxies) && !any_not_last(look.proxies, schedule)
}
