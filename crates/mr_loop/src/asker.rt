//! Who asks, and when.

/// What a loop may hold of one client and of one link.
#[derive(Clone, Copy, Debug, Drop)]
pub struct Limits {
    /// With as many legs in the queue of a link no request is begun that has a leg over it.
    pub most_legs: usize,
    /// With as many requests of a client begun that it wasn't told of yet, no further one of it is begun. So one that reads
    /// nothing is to be told no more than the bytes that it may leave unread and so many answers.
    pub most_begun: usize,
    /// With more bytes of its answers unread, those that wait in turn among them, no further request of a client is begun.
    pub most_unread: usize,
    /// How long the first leg of a link may be without a reply, in microseconds.
    pub leg_timeout: u64,
}

/// A client that may ask now.
#[derive(Clone, Copy, Debug, Drop)]
pub struct Asker {
    /// Its place.
    pub client: usize,
    /// What the clock reads, in seconds since the epoch.
    pub reading: u64,
    /// The time by which legs are timed, in microseconds of a clock that never goes back.
    pub now: u64,
    /// What the loop may hold.
    pub limits: Limits,
}
