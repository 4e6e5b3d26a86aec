//! How long a service waits for who is silent. No contract speaks of time.

use std::net::OpenStream;
use std::time::Duration;

/// How long a service waits for a client and for a node that are silent.
#[derive(Clone, Copy, Debug)]
pub struct Patience {
    /// How many seconds a client may send nothing, or read nothing of what it is answered; 0 for as many as it likes.
    pub client_seconds: u64,
    /// How many milliseconds a leg's connecting, each of its reads and each of its writes may wait for its node; 0 for as many
    /// as it takes. A node has no legs.
    pub leg_millis: u64,
}

impl Patience {
    /// Waits for good.
    pub(crate) const ENDLESS: Patience = Patience {
        client_seconds: 0,
        leg_millis: 0,
    };

    /// How long a client may be silent, where that is bounded.
    pub fn for_client(self) -> Option<Duration> {
        bound_of(Duration::from_secs(self.client_seconds))
    }
}

/// How long a leg may wait at a time, where that is bounded.
pub fn leg_wait(millis: u64) -> Option<Duration> {
    bound_of(Duration::from_millis(millis))
}

/// The bound that this is, unless it is nothing.
fn bound_of(duration: Duration) -> Option<Duration> {
    if duration.is_zero() {
        None
    } else {
        Some(duration)
    }
}

/// From now on each read and each write of a connection waits so long at most. A system that takes no such bound sets none.
pub(crate) fn bound_waits<S: OpenStream>(stream: &S, wait: Option<Duration>) {
    if wait.is_some() {
        let _ = stream.set_read_timeout(wait);
        let _ = stream.set_write_timeout(wait);
    }
}
