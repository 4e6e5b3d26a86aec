//! What services tell of themselves.
use mr_phases::PhaseName;

/// Where a proxy stands in the schedule, by its own clock.
#[derive(Clone, Copy, Debug)]
pub struct Place {
    /// The migration in force, counted from 0.
    pub hop: u64,
    /// The phase in force.
    pub phase: PhaseName,
    /// When the next phase begins, in seconds since the epoch; None in the last one.
    pub next_phase: Option<u64>,
}

/// What a proxy did since it began.
#[derive(Clone, Copy, Debug)]
pub struct Traffic {
    /// Requests that were issued.
    pub requests: u64,
    /// Keys of gets that were found.
    pub hits: u64,
    /// Answers that a leg was lost.
    pub lost: u64,
    /// How often a request was held back; None where that isn't told, as by earlier versions.
    pub held_back: Option<u64>,
}

/// What a proxy tells.
#[derive(Clone, Copy, Debug)]
pub struct ProxyTold<'a> {
    /// The digest of its configuration.
    pub digest: &'a [u8],
    /// What its clock said, in seconds since the epoch; None where it gave no reading.
    pub clock: Option<u64>,
    /// How often its clock gave a reading before the one that it gave last.
    pub steps_back: u64,
    /// Where it stands in the schedule.
    pub place: Place,
    /// What it did.
    pub traffic: Traffic,
}

/// What a node tells.
#[derive(Clone, Copy, Debug)]
pub struct NodeTold<'a> {
    /// Where its clients connect.
    pub address: &'a [u8],
    /// Items that it holds.
    pub items: u64,
    /// Keys that were asked for and found.
    pub hits: u64,
}

/// What a service tells.
#[derive(Clone, Copy, Debug)]
pub enum Told<'a> {
    /// It is a proxy.
    Proxy(ProxyTold<'a>),
    /// It is a node.
    Node(NodeTold<'a>),
}
