//! A fleet whose proxies and nodes are loops, with the bytes that are on their way between them.
use crate::bounds::Bounds;
use crate::connection::Connection;
use crate::making::{first_loop, proxy_loop};
use crate::record::Record;
use crate::visit::Visit;
use mr_loop::{NodeLoop, ProxyLoop};
use mr_node::CacheNode;
use mr_pools::NodeName;
use mr_scripts::read_events;
use mr_world::Setup;
use std::alloc::Global;
use std::test::Fail;

/// A proxy.
#[derive(Drop)]
pub struct ProxyEnd {
    /// Its loop.
    pub machine: ProxyLoop,
    /// What its clock shows.
    pub reading: u64,
    /// The number of the visit of the client of each place.
    pub visits: Vec<usize>,
}

/// A node.
#[derive(Drop)]
pub struct NodeEnd {
    /// Its name.
    pub name: NodeName,
    /// Its loop.
    pub machine: NodeLoop<CacheNode>,
}

/// A whole fleet.
#[derive(Drop)]
pub struct Fleet {
    /// Where memory comes from.
    pub alloc: Global,
    /// What it was made of.
    pub setup: Setup,
    /// What its loops may hold.
    pub bounds: Bounds,
    /// The time by which legs are timed, in microseconds.
    pub now: u64,
    /// The proxies, by their numbers.
    pub proxies: Vec<ProxyEnd>,
    /// The nodes, one for each name.
    pub nodes: Vec<NodeEnd>,
    /// Each connection that was ever made.
    pub connections: Vec<Connection>,
    /// Each client that ever was.
    pub visits: Vec<Visit>,
    /// What happened.
    pub record: Record,
}

impl Fleet {
    /// The fleet that a script says, to which nothing has happened yet.
    pub fn of(alloc: Global, script: &[u8], bounds: Bounds) -> Result<Fleet, Fail> {
        let setup = read_events(alloc, script)?.setup().copy()?;
        let mut fleet = Fleet {
            alloc,
            bounds,
            now: 0,
            proxies: Vec::new(alloc),
            nodes: Vec::new(alloc),
            connections: Vec::new(alloc),
            visits: Vec::new(alloc),
            record: Record::of(alloc, &setup)?,
            setup,
        };
        fleet.add_proxies()?;
        fleet.add_nodes()?;
        Ok(fleet)
    }

    /// Its proxies come up, without clients.
    fn add_proxies(&mut self) -> Result<(), Fail> {
        let mut number: u32 = 0;
        for setup in self.setup.proxies() {
            self.proxies.push(ProxyEnd {
                machine: proxy_loop(self.alloc, self.bounds, number, 0, setup)?,
                reading: setup.reading,
                visits: Vec::new(self.alloc),
            })?;
            number = number.saturating_add(1);
        }
        for proxy in 0..self.proxies.len() {
            self.renew_visits(proxy)?;
        }
        Ok(())
    }

    /// Nothing came yet of the client of any place of a proxy.
    pub fn renew_visits(&mut self, proxy: usize) -> Result<(), Fail> {
        let Some(end) = self.proxies.get_mut(proxy) else {
            return Err(Fail::from("there is no such proxy"));
        };
        end.visits.clear();
        for _ in 0..self.bounds.places {
            end.visits.push(self.visits.len())?;
            self.visits.push(Visit::new(self.alloc))?;
        }
        Ok(())
    }

    /// Its nodes come up, one for each name, and hold what the setup says.
    fn add_nodes(&mut self) -> Result<(), Fail> {
        for proxy in self.setup.proxies() {
            for pool in proxy.routing.pools() {
                for name in pool.names() {
                    if number_in(&self.nodes, name).is_none() {
                        self.nodes.push(NodeEnd {
                            name: name.copy()?,
                            machine: first_loop(self.alloc, self.bounds, &self.setup, name)?,
                        })?;
                    }
                }
            }
        }
        Ok(())
    }

    /// What the judge says, what was counted, the bytes that the client of each visit was told, and the events of the world.
    pub fn told(&self) -> Result<String, Fail> {
        let mut told = self.record.told()?;
        for visit in &self.visits {
            let digits = hex::encode(self.alloc, visit.heard.as_slice())?;
            told.push_str(" -")?;
            told.push_str(digits.as_str())?;
        }
        Ok(told)
    }
}

/// The number of the node of a name.
pub fn number_in(nodes: &[NodeEnd], name: &NodeName) -> Option<usize> {
    for (number, node) in nodes.iter().enumerate() {
        if node.name.as_bytes() == name.as_bytes() {
            return Some(number);
        }
    }
    None
}
