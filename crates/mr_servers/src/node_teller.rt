//! What a node on loops tells of itself to those that scrape it.
ghost use Rattle.std.specs.Prelude.{◌≡◌, IfOk};
ghost use Rattle.mr_servers.specs.NodeTelling.{IsNodeSnapshotOf, TellsServed, node_is};

use crate::node_reports::served_by;
use mr_clock::Clock;
use mr_counting::ServiceTime;
use mr_driver::{CacheLook, Doors, SharedCache};
use mr_http::Tells;
use mr_loop::ServedCounts;
use mr_metrics::{NodeSnapshot, ServiceSnapshot, node_metrics};
use std::alloc::{AllocError, Global};
use std::sync::Wait;
use std::time;

/// What a node on loops tells of itself to those that scrape it.
pub(crate) struct NodeTeller<'a, K: Clock + Clone, R: Wait + time::Clock> {
    /// What may wait for the loops to answer, and for the cache's lock.
    pub(crate) rt: &'a R,
    /// The version of the program.
    pub(crate) version: &'a str,
    /// Where its clients connect.
    pub(crate) address: &'a str,
    /// By which its loops are asked.
    pub(crate) doors: &'a Doors<ServedCounts>,
    /// The cache that they share.
    pub(crate) cache: &'a SharedCache,
    /// How its clock runs.
    pub(crate) time: &'a ServiceTime,
    /// Its clock.
    pub(crate) clock: &'a K,
}

impl<'a, K: Clock + Clone, R: Wait + time::Clock> Drop for NodeTeller<'a, K, R> {
    fn drop(self) {
        let Self {
            rt: _,
            version: _,
            address: _,
            doors: _,
            cache: _,
            time: _,
            clock: _,
        } = self;
    }
}

/// What is known of a node whose loops, so many of which answered, count this together.
fn snapshot_of<'a>(
    service: ServiceSnapshot<'a>,
    address: &'a str,
    loops: u64,
    served: &ServedCounts,
    look: &CacheLook,
) -> NodeSnapshot<'a>
    ensures service { result.service ≡ service.entry }
    ensures rest { IsNodeSnapshotOf address.entry.now loops served.now look.now result }
{
    NodeSnapshot {
        service,
        address,
        items: look.items,
        capacity: look.capacity,
        hits: served.hits,
        misses: served.misses,
        stored: served.stored,
        deleted: served.deleted,
        not_found: served.not_found,
        evicted: look.evicted,
        loops,
    }
}

/// What a node tells whose loops report this, and whose cache looks so.
fn told_of<K: Clock + Clone>(
    alloc: Global,
    version: &str,
    address: &str,
    time: &ServiceTime,
    clock: &K,
    reports: &[ServedCounts],
    look: &CacheLook,
) -> Result<Vec<u8>, AllocError>
    ensures { IfOk result (λ text. TellsServed (node_is version.entry address.entry) reports.now look.now text.items) }
{
    let served = served_by(reports);
    let service = time.snapshot(clock, version, served.came, served.left);
    let snapshot = snapshot_of(service, address, reports.len() as u64, &served, look);
    node_metrics(alloc, &snapshot)
}

impl<'a, K: Clock + Clone, R: Wait + time::Clock> Tells for NodeTeller<'a, K, R> {
    ghost use Rattle.mr_servers.specs.NodeTelling.{TellsNode, node_is};

    ghost told = { λ t text. TellsNode (node_is t.version t.address) text };

    fn tell(&self, alloc: Global) -> Result<Vec<u8>, AllocError> {
        let reports = self.doors.ask(self.rt, alloc)?;
        let look = self.cache.look(self.rt);
        told_of(
            alloc,
            self.version,
            self.address,
            self.time,
            self.clock,
            reports.as_slice(),
            &look,
        )
    }
}
