//! Fleets in a few words.
ghost use Rattle.std.specs.Prelude.{◌≡◌, length, IfOk};

use mr_phases::Schedule;
use mr_pools::{NamedHash, NodeName, Pool, Routing};
use mr_text::{Block, Key};
use mr_world::{HeldItem, ProxySetup, Setup, World, WorldError};
use std::alloc::Global;
use std::test::Fail;

/// A fleet: the old pool is 7001 and 7002, the new one 7101 to 7103, the hash the sum of a key's bytes, and a migration
/// has an interval of 100 seconds.
#[derive(Clone, Copy)]
pub struct Fleet {
    /// For each proxy when its migration starts, and what its clock shows.
    pub proxies: &'static [(u64, u64)],
    /// The most requests under way at each proxy.
    pub room: u64,
    /// The most items of each node.
    pub capacity: usize,
    /// The nodes that hold `k` with the data `v`.
    pub holders: &'static [&'static [u8]],
}

fn pool(alloc: Global, names: &[&[u8]]) -> Result<Pool, Fail> {
    let mut list = Vec::new(alloc);
    for name in names {
        list.push(NodeName::new(alloc, name)?)?;
    }
    Ok(Pool::new(list)?)
}

/// The routing from 7001 and 7002 to 7101, 7102 and 7103, by the sum of a key's bytes.
pub fn routing(alloc: Global) -> Result<Routing, Fail>
    ensures { IfOk result (λ routing. length routing.pools ≡ 2) }
{
    let old = pool(alloc, &[b"7001", b"7002"])?;
    let new = pool(alloc, &[b"7101", b"7102", b"7103"])?;
    Ok(Routing::new(old, new, NamedHash::Sum)?)
}

/// A proxy of that routing, whose migration starts then.
fn proxy(alloc: Global, start: u64, reading: u64, room: u64) -> Result<ProxySetup, Fail> {
    let schedule = Schedule::new(start, 100)?;
    let routing = routing(alloc)?;
    Ok(ProxySetup {
        routing,
        schedule,
        room,
        reading,
    })
}

fn proxies(alloc: Global, clocks: &[(u64, u64)], room: u64) -> Result<Vec<ProxySetup>, Fail> {
    let mut proxies = Vec::new(alloc);
    for (start, reading) in clocks {
        proxies.push(proxy(alloc, *start, *reading, room)?)?;
    }
    Ok(proxies)
}

/// The node `k` with `v`.
fn held_item(alloc: Global, node: &[u8]) -> Result<HeldItem, Fail> {
    Ok(HeldItem {
        node: NodeName::new(alloc, node)?,
        key: Key::new(alloc, b"k")?,
        flags: 0,
        block: Block::new(alloc, b"v")?,
    })
}

fn held_items(alloc: Global, holders: &[&[u8]]) -> Result<Vec<HeldItem>, Fail> {
    let mut items = Vec::new(alloc);
    for node in holders {
        items.push(held_item(alloc, node)?)?;
    }
    Ok(items)
}

/// The setup of one proxy whose routing has two pools, and whose schedule two hops.
fn setup_of_two_hops(alloc: Global, capacity: usize) -> Result<Setup, Fail>
    ensures { IfOk result (λ setup. length setup.proxies ≡ 1) }
{
    let Ok(schedule) = Schedule::new(1000, 100)?.then(1200, 50) else {
        return Err(Fail::from("a second migration was refused"));
    };
    let proxy = ProxySetup {
        routing: routing(alloc)?,
        schedule,
        room: 4,
        reading: 999,
    };
    let proxies = vec![in alloc; proxy]?;
    Ok(Setup::new(proxies, capacity, Vec::new(alloc)))
}

/// The world of that setup, or why there is none.
pub fn world_of_two_hops(
    alloc: Global,
    capacity: usize,
) -> Result<Result<World, WorldError>, Fail> {
    let setup = setup_of_two_hops(alloc, capacity)?;
    Ok(World::new(alloc, setup))
}

impl Fleet {
    /// The setup of the fleet.
    pub fn setup(&self, alloc: Global) -> Result<Setup, Fail> {
        let proxies = proxies(alloc, self.proxies, self.room)?;
        let held = held_items(alloc, self.holders)?;
        Ok(Setup::new(proxies, self.capacity, held))
    }

    /// The world of the fleet, or why there is none.
    pub fn world_or_refusal(&self, alloc: Global) -> Result<Result<World, WorldError>, Fail> {
        let setup = self.setup(alloc)?;
        if setup.proxies().len() > 8 {
            return Err(Fail::from("too many proxies"));
        }
        Ok(World::new(alloc, setup))
    }

    /// The world of the fleet.
    pub fn world(&self, alloc: Global) -> Result<World, Fail> {
        Ok(self.world_or_refusal(alloc)??)
    }
}
