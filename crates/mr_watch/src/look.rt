//! What was seen at one look at a fleet.
use crate::told::ProxyTold;

/// What was seen of a proxy.
#[derive(Clone, Copy, Debug)]
pub struct ProxySeen<'a> {
    /// Where it tells of itself.
    pub address: &'a str,
    /// What it told; None where it wasn't reached, or told nothing that a proxy tells.
    pub told: Option<ProxyTold<'a>>,
    /// Whether it told what a proxy tells at this look or at an earlier one.
    pub known: bool,
    /// When it was asked, in milliseconds of the watcher's own clock, which never goes back.
    pub asked: u64,
    /// When its answer was there: it read its clock between the two.
    pub answered: u64,
}

/// What was seen of a node.
#[derive(Clone, Copy, Debug)]
pub struct NodeSeen<'a> {
    /// Its pool, counted from 0 in the order of the migrations.
    pub pool: u32,
    /// Its name in the configuration.
    pub name: &'a str,
    /// How many items it holds; None where it wasn't reached.
    pub items: Option<u64>,
    /// How many keys it was asked for and had.
    pub hits: Option<u64>,
}

/// What was seen at one look. The nodes are asked before the first proxy is: so a node held what it told when no proxy's clock
/// said more than that proxy told afterwards.
#[derive(Clone, Copy, Debug)]
pub struct Look<'a> {
    /// When it began, in milliseconds of the watcher's own clock.
    pub began: u64,
    /// When it ended.
    pub ended: u64,
    /// The proxies, in the order in which the watcher was told of them.
    pub proxies: &'a [ProxySeen<'a>],
    /// The nodes of all pools, in the order of the configuration.
    pub nodes: &'a [NodeSeen<'a>],
}
