//! A cache that many threads share.
ghost use Rattle.std.specs.Prelude.{◌≡◌, IfOk};
ghost use Rattle.mr_node.specs.Kinds.{IsOfKind};
ghost use Rattle.mr_node.specs.declared.command.NodeCommand.TheVariants.{Get};

use mr_join::LegReply;
use mr_node::{CacheNode, NodeCommand, Perform};
use mr_text::Key;
use std::alloc::AllocError;
use std::sync::{Mutex, Wait};

/// A cache that many threads share.
#[derive(Drop)]
pub struct SharedNode {
    node: Mutex<CacheNode>,
}

impl SharedNode {
    /// The cache, shared. It takes no memory.
    pub fn new(node: CacheNode) -> SharedNode {
        SharedNode {
            node: Mutex::new(node),
        }
    }

    /// What performs commands on the cache, and holds its lock for one command at a time.
    pub fn desk<'a, R: Wait>(&'a self, rt: &'a R) -> NodeDesk<'a, R> {
        NodeDesk { rt, node: self }
    }
}

/// What performs commands on a shared cache, and holds its lock for one command at a time.
pub struct NodeDesk<'a, R: Wait> {
    rt: &'a R,
    node: &'a SharedNode,
}

impl<'a, R: Wait> Drop for NodeDesk<'a, R> {
    fn drop(self) {
        let Self { rt: _, node: _ } = self;
    }
}

/// Performs a command. The reply is of the command's kind.
fn perform_on<P: Perform>(
    node: &mut P,
    now: u64,
    command: NodeCommand,
) -> Result<LegReply, AllocError>
    ensures { IfOk result (IsOfKind command) }
{
    node.perform(now, command)
}

/// Performs a get of a lent key. The reply is of its kind.
fn get_from<P: Perform>(node: &mut P, now: u64, key: &Key) -> Result<LegReply, AllocError>
    ensures { IfOk result (IsOfKind (Get key.now)) }
{
    node.get(now, key)
}

impl<'a, R: Wait> Perform for NodeDesk<'a, R> {
    ghost use Rattle.mr_node.specs.Kinds.{IsOfKind};

    ghost did = { λ _ _ command reply _. IsOfKind command reply };

    ghost refused = { λ _ _ _ _. Unit {0} };

    ghost of_kind = { λ _ _ _ _ _ done. done };

    fn perform(&mut self, now: u64, command: NodeCommand) -> Result<LegReply, AllocError> {
        let mut node = self.node.node.lock(self.rt);
        perform_on(&mut *node, now, command)
    }

    fn get(&mut self, now: u64, key: &Key) -> Result<LegReply, AllocError> {
        let mut node = self.node.node.lock(self.rt);
        get_from(&mut *node, now, key)
    }
}
