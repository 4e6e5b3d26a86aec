//! What a proxy did since the look before.
ghost use Rattle.std.specs.Prelude.{◌≡◌, find, option_copied};
ghost use Rattle.mr_watch.specs.Rate.{is_same_told, rate_at, requests_of, rate_between, rate_since, rate_of};

use crate::look::ProxySeen;

/// Whether this is the same address, and answered.
fn is_same_told(proxy: &ProxySeen<'_>, earlier: &ProxySeen<'_>) -> bool
    ensures { result ≡ is_same_told proxy.now earlier.now }
{
    earlier.address == proxy.address && earlier.told.is_some()
}

/// The first of these of the same address that answered.
pub(crate) fn told_before<'a>(
    earlier: &'a [ProxySeen<'a>],
    proxy: &ProxySeen<'_>,
) -> Option<&'a ProxySeen<'a>>
    ensures { option_copied result ≡ find (is_same_told proxy.now) earlier.now }
{
    earlier.iter().find(|before| is_same_told(proxy, before))
}

/// Requests in a second, where so many were made in so many milliseconds.
fn rate_at(requests: u64, milliseconds: u64) -> u64
    ensures { result ≡ rate_at requests milliseconds }
{
    let rate = u128::from(requests) * 1000 / u128::from(milliseconds.max(1));
    rate.min(u128::from(u64::MAX)) as u64
}

/// What it had issued, where it answered.
fn requests_of(proxy: &ProxySeen<'_>) -> Option<u64>
    ensures { result ≡ requests_of proxy.now.told }
{
    match &proxy.told {
        Some(told) => Some(told.traffic.requests),
        None => None,
    }
}

/// Requests in a second between two answers.
fn rate_between(
    answered: u64,
    earlier_answered: u64,
    requests: Option<u64>,
    earlier: Option<u64>,
) -> Option<u64>
    ensures { result ≡ rate_between answered earlier_answered requests earlier }
{
    match (requests, earlier) {
        (Some(requests), Some(earlier)) => {
            let milliseconds = answered.saturating_sub(earlier_answered);
            Some(rate_at(requests.saturating_sub(earlier), milliseconds))
        }
        _ => None,
    }
}

/// Requests in a second since the look before saw these. None where the same address didn't answer then, or not now.
pub(crate) fn rate_of(earlier: &[ProxySeen<'_>], proxy: &ProxySeen<'_>) -> Option<u64>
    ensures { result ≡ rate_of earlier.now proxy.now }
{
    match told_before(earlier, proxy) {
        Some(before) => rate_between(
            proxy.answered,
            before.answered,
            requests_of(proxy),
            requests_of(before),
        ),
        None => None,
    }
}
