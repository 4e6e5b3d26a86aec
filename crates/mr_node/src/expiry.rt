//! When items expire.
ghost use Rattle.std.specs.Prelude.{◌≡◌};
ghost use Rattle.mr_node.specs.Expiry.{expiry_of, is_alive};

/// The greatest exptime that counts from the moment of its set, in seconds: thirty days.
pub const MAX_RELATIVE_EXPTIME: u64 = 2_592_000;

/// The moment from which on an item is expired that is set now, both in seconds since the epoch.
pub(crate) fn expiry_of(now: u64, exptime: i64) -> Option<u64>
    ensures { result ≡ expiry_of now exptime }
{
    if exptime < 0 {
        return Some(now);
    }
    let seconds = exptime as u64;
    if seconds == 0 {
        None
    } else if seconds <= MAX_RELATIVE_EXPTIME {
        Some(now.saturating_add(seconds))
    } else {
        Some(seconds)
    }
}

/// Whether an item with this expiry isn't expired yet.
pub(crate) fn is_alive(now: u64, expires_at: Option<u64>) -> bool
    ensures { result ≡ is_alive now expires_at }
{
    match expires_at {
        None => true,
        Some(moment) => now < moment,
    }
}
