//! The nodes of a fleet, found by their names.
ghost use Rattle.std.specs.Prelude.{◌≡◌, ◌<◌, [], length, position, bytes_eq, IfOk, MatchResult};
ghost use Rattle.mr_world.specs.Positions.{node_number};
ghost use Rattle.mr_world.specs.Setup.{with_name, empty_node};

use crate::node::Node;
use mr_join::LegReply;
use mr_node::{CacheNode, NodeCommand, Perform};
use mr_pools::NodeName;
use std::alloc::{AllocError, Global};
use std::collections::BTreeMap;
use std::marker::Model;

/// The nodes of a fleet, one for each name.
#[derive(Drop)]
pub(crate) struct Nodes {
    nodes: Vec<Node>,
    /// The number of the node of each name. Whoever writes a script chooses the names, so they are kept in order: names
    /// that are made to fall together under a hash cost no more than others.
    numbers: BTreeMap<String, usize>,
}

impl Model for Nodes {
    ghost use Rattle.std.specs.Prelude.{List};
    ghost use Rattle.mr_world.specs.declared.node.Node.{Node};
    ghost use Rattle.mr_world.specs.Nodes.{KnowsNumbers};

    ghost Value = { List Node };

    ghost view = { λ n. n.nodes.items };

    ghost invariant = { λ n. KnowsNumbers n.numbers n.nodes.items };
}

/// A node of this name that keeps nothing yet.
fn empty_node(alloc: Global, capacity: usize, name: &NodeName) -> Result<Node, AllocError>
    ensures { IfOk result (λ node. node ≡ empty_node capacity name.now) }
{
    let name = name.copy()?;
    match CacheNode::new(alloc, capacity) {
        Ok(cache) => Ok(Node { name, cache }),
        Err(_) => Err(AllocError),
    }
}

impl Nodes {
    ghost use Rattle.mr_world.specs.Nodes.{PerformsAt, EmptiesAt};

    /// No node.
    pub(crate) fn new(alloc: Global) -> Nodes
        ensures { result ≡ [] }
    {
        Nodes {
            nodes: Vec::new(alloc),
            numbers: BTreeMap::new(alloc),
        }
    }

    /// How many nodes there are.
    pub(crate) fn len(&self) -> usize
        ensures { result ≡ length self.now }
    {
        self.nodes.len()
    }

    /// The number of the node of this name, if there is one.
    pub(crate) fn find(&self, name: &NodeName) -> Option<usize>
        ensures { result ≡ position (λ node. bytes_eq node.name name.now) self.now }
    {
        self.numbers.get(name.as_str()).copied()
    }

    /// The number of the node of this name, or how many nodes there are where none has it.
    pub(crate) fn number_of(&self, name: &NodeName) -> usize
        ensures { result ≡ node_number self.now name.now }
    {
        match self.find(name) {
            Some(number) => number,
            None => self.len(),
        }
    }

    /// Adds an empty node of this name, unless there is one of it.
    pub(crate) fn add(&mut self, capacity: usize, name: &NodeName) -> Result<(), AllocError>
        ensures { IfOk result (λ _. self.new ≡ with_name capacity self.old name.now) }
    {
        if self.number_of(name) < self.len() {
            return Ok(());
        }
        let alloc = *self.nodes.allocator();
        let node = empty_node(alloc, capacity, name)?;
        let text = String::from_str(alloc, name.as_str())?;
        let number = self.nodes.len();
        self.nodes.reserve(1)?;
        self.numbers.insert(text, number)?;
        self.nodes.push_reserved(node);
        Ok(())
    }

    /// The node of a number performs a command. Where memory lacks, it changes nothing.
    pub(crate) fn perform(
        &mut self,
        number: usize,
        now: u64,
        command: NodeCommand,
    ) -> Result<LegReply, AllocError>
        requires { number < length self.old }
        ensures { MatchResult result
            (λ reply. PerformsAt self.old number now command reply self.new)
            (λ _. self.new ≡ self.old) }
    {
        let node = &mut self.nodes[number];
        node.cache.perform(now, command)
    }

    /// The node of a number begins again, empty.
    pub(crate) fn restart(&mut self, number: usize)
        requires { number < length self.old }
        ensures { EmptiesAt self.old number self.new }
    {
        let node = &mut self.nodes[number];
        node.cache.restart();
    }
}
