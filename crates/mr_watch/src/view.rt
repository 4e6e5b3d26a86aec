//! What is shown of a look.
use crate::finding::Findings;
use crate::look::{Look, ProxySeen};
use mr_phases::Schedule;

/// What is shown of a look.
#[derive(Clone, Copy, Debug)]
pub struct View<'a> {
    /// What the watcher's clock said, in seconds since the epoch.
    pub at: u64,
    /// When it said that, in milliseconds of the watcher's own clock, which never goes back.
    pub moment: u64,
    /// What was seen.
    pub look: Look<'a>,
    /// The proxies as the look before saw them; none at the first one.
    pub earlier: &'a [ProxySeen<'a>],
    /// What was found of the premises so far.
    pub findings: Findings,
    /// The digest of the watcher's configuration.
    pub expected: &'a [u8],
    /// The schedule of its route.
    pub schedule: Schedule,
}
