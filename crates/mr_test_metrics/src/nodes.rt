//! What a node of a row tells.
use crate::words::Words;
use mr_metrics::{NodeSnapshot, ServiceSnapshot, node_metrics};
use std::alloc::Global;
use std::test::Fail;

/// What of a service has numbers alone.
#[derive(Clone, Copy)]
pub struct Service {
    began: Option<u64>,
    connected: u64,
    accepted: u64,
    clock: Option<u64>,
    steps_back: u64,
}

impl Service {
    /// The next words, as a service's numbers.
    pub fn of(words: &mut Words<'_>) -> Result<Service, Fail> {
        Ok(Service {
            began: words.perhaps()?,
            connected: words.number()?,
            accepted: words.number()?,
            clock: words.perhaps()?,
            steps_back: words.number()?,
        })
    }

    /// With a version.
    pub fn snapshot<'a>(self, version: &'a str) -> ServiceSnapshot<'a> {
        ServiceSnapshot {
            version,
            began: self.began,
            connected: self.connected,
            accepted: self.accepted,
            clock: self.clock,
            steps_back: self.steps_back,
        }
    }
}

/// What a node tells whose words are these.
pub fn told_of_node(alloc: Global, words: &mut Words<'_>) -> Result<Vec<u8>, Fail> {
    let version = words.text(alloc)?;
    let service = Service::of(words)?;
    let address = words.text(alloc)?;
    let snapshot = NodeSnapshot {
        service: service.snapshot(version.as_str()),
        address: address.as_str(),
        items: words.number()?,
        capacity: words.number()?,
        hits: words.number()?,
        misses: words.number()?,
        stored: words.number()?,
        deleted: words.number()?,
        not_found: words.number()?,
        evicted: words.number()?,
        loops: words.number()?,
    };
    Ok(node_metrics(alloc, &snapshot)?)
}
