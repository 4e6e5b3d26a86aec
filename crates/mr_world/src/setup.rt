//! What a fleet is made of.
ghost use Rattle.std.specs.Prelude.{◌≡◌, IfOk};

use mr_phases::Schedule;
use mr_pools::{NodeName, Routing};
use mr_text::{Block, Key};
use std::alloc::AllocError;
use std::marker::Model;

/// One proxy as it is at the beginning.
#[derive(Debug, Drop)]
pub struct ProxySetup {
    /// The pools, and the hash that places keys in them.
    pub routing: Routing,
    /// When the migration goes from phase to phase.
    pub schedule: Schedule,
    /// The most requests under way.
    pub room: u64,
    /// The first reading of the proxy's clock, in seconds since the epoch.
    pub reading: u64,
}

/// An item that a node holds at the beginning. It never expires.
#[derive(Debug, Drop)]
pub struct HeldItem {
    /// The node's name.
    pub node: NodeName,
    /// The item's name.
    pub key: Key,
    /// The client's number.
    pub flags: u32,
    /// The data.
    pub block: Block,
}

/// A fleet as it is at the beginning: its proxies by number, the most items of each node, and what nodes hold. The
/// nodes are all that the proxies' routings name.
#[derive(Debug, Drop)]
pub struct Setup {
    proxies: Vec<ProxySetup>,
    capacity: usize,
    held: Vec<HeldItem>,
}

impl Model for Setup {
    ghost use Rattle.mr_world.specs.Setup.{SetupView};

    ghost Value = { SetupView };

    ghost view = { λ s. record { proxies = s.proxies.items; capacity = s.capacity; held = s.held.items } };
}

impl ProxySetup {
    /// An equal value.
    pub fn copy(&self) -> Result<ProxySetup, AllocError>
        ensures { IfOk result (λ proxy. proxy ≡ self.now) }
    {
        Ok(ProxySetup {
            routing: self.routing.copy()?,
            schedule: self.schedule,
            room: self.room,
            reading: self.reading,
        })
    }
}

impl HeldItem {
    /// An equal item.
    pub fn copy(&self) -> Result<HeldItem, AllocError>
        ensures { IfOk result (λ item. item ≡ self.now) }
    {
        Ok(HeldItem {
            node: self.node.copy()?,
            key: self.key.copy()?,
            flags: self.flags,
            block: self.block.copy()?,
        })
    }
}

impl Setup {
    /// The setup of these proxies, of nodes that keep at most `capacity` items each, and of the items that are held.
    /// An item that is held again, or for which its node has no room, does what a set of it does.
    pub fn new(proxies: Vec<ProxySetup>, capacity: usize, held: Vec<HeldItem>) -> Setup
        ensures { result ≡ record { proxies = proxies.items; capacity = capacity; held = held.items } }
    {
        Setup {
            proxies,
            capacity,
            held,
        }
    }

    /// The proxies by their numbers.
    pub fn proxies(&self) -> &[ProxySetup]
        ensures { result.now ≡ self.now.proxies }
    {
        self.proxies.as_slice()
    }

    /// The most items of each node.
    pub fn capacity(&self) -> usize
        ensures { result ≡ self.now.capacity }
    {
        self.capacity
    }

    /// What nodes hold at the beginning, in order.
    pub fn held(&self) -> &[HeldItem]
        ensures { result.now ≡ self.now.held }
    {
        self.held.as_slice()
    }

    /// The proxies, and what nodes hold, given back without taking memory.
    pub(crate) fn into_parts(self) -> (Vec<ProxySetup>, Vec<HeldItem>)
        ensures proxies { result.0.items ≡ self.proxies }
        ensures held { result.1.items ≡ self.held }
    {
        (self.proxies, self.held)
    }

    /// An equal setup.
    pub fn copy(&self) -> Result<Setup, AllocError>
        ensures { IfOk result (λ setup. setup ≡ self.now) }
    {
        Ok(Setup {
            proxies: copied_proxies(&self.proxies)?,
            capacity: self.capacity,
            held: copied_items(&self.held)?,
        })
    }
}

/// Equal proxies.
fn copied_proxies(proxies: &Vec<ProxySetup>) -> Result<Vec<ProxySetup>, AllocError>
    ensures { IfOk result (λ copied. copied.items ≡ proxies.now.items) }
{
    let mut copied = Vec::with_capacity(*proxies.allocator(), proxies.len())?;
    for proxy in proxies {
        copied.push(proxy.copy()?)?;
    }
    Ok(copied)
}

/// Equal items.
fn copied_items(items: &Vec<HeldItem>) -> Result<Vec<HeldItem>, AllocError>
    ensures { IfOk result (λ copied. copied.items ≡ items.now.items) }
{
    let mut copied = Vec::with_capacity(*items.allocator(), items.len())?;
    for item in items {
        copied.push(item.copy()?)?;
    }
    Ok(copied)
}
