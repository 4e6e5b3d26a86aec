//! What is sent to a node for one leg of a request, and what comes back.
ghost use Rattle.std.specs.Prelude.{◌≡◌, ◌↔◌, IsTrue, IfOk, MatchOption};

use mr_history::OpId;
use mr_join::LegReply;
use mr_node::NodeCommand;
use mr_phases::Side;
use mr_pools::{NodeName, Routing};
use std::alloc::AllocError;

/// The name of a leg.
#[derive(Clone, Copy, Debug, PartialEq, Eq)]
pub struct LegId {
    /// The request.
    pub op: OpId,
    /// The leg's place among those of the request, counted from 0.
    pub place: u32,
}

/// One leg of a request: which node is told what.
#[derive(Debug, Drop)]
pub struct LegSheet {
    /// The leg's name.
    pub id: LegId,
    /// The migration that was in force, counted from 0.
    pub hop: u32,
    /// The side of that migration whose pool has the node.
    pub side: Side,
    /// The node's index in that pool.
    pub node: u32,
    /// What the node is told to do.
    pub command: NodeCommand,
}

impl LegSheet {
    ghost use Rattle.mr_proxy.specs.Sheets.{pool_at, placed, node_name, IsPlaced, HasHop};

    /// The sheet of a leg to the node, in that side's pool of the hop, that keeps the command's key.
    #[inline(always)]
    pub(crate) fn for_leg(
        routing: &Routing,
        hop: u32,
        id: LegId,
        side: Side,
        command: NodeCommand,
    ) -> LegSheet
        requires { HasHop routing.now hop }
        ensures { result
            ≡ placed routing.now (record { id = id; hop = hop; side = side; node = 0; command = command }) }
    {
        let hash = routing.hash();
        let pool = routing.pool(side.pool_number(hop));
        let node = pool.pick(&hash, command.key()) as u32;
        LegSheet {
            id,
            hop,
            side,
            node,
            command,
        }
    }

    /// The number of the pool that has the node, counted from 0 in the order of the migrations.
    #[inline(always)]
    pub fn pool_number(&self) -> usize
        ensures { result ≡ pool_at self.now }
    {
        self.side.pool_number(self.hop)
    }

    /// The name of the node; None where the routing has no such node.
    pub fn node_name<'a>(&self, routing: &'a Routing) -> Option<&'a NodeName>
        ensures { MatchOption result
            (¬ IsPlaced routing.now self.now)
            (λ name. IsPlaced routing.now self.now × (name.now ≡ node_name routing.now self.now)) }
    {
        let pool = routing.pools().get(self.pool_number())?;
        pool.names().get(self.node as usize)
    }

    /// Whether the other sheet is equal. It takes no memory.
    pub fn same_as(&self, other: &LegSheet) -> bool
        ensures { IsTrue result ↔ (self.now ≡ other.now) }
    {
        self.id == other.id
            && self.hop == other.hop
            && self.side == other.side
            && self.node == other.node
            && self.command.same_as(&other.command)
    }

    /// An equal sheet.
    #[inline(always)]
    pub fn copy(&self) -> Result<LegSheet, AllocError>
        ensures { IfOk result (λ sheet. sheet ≡ self.now) }
    {
        Ok(LegSheet {
            id: self.id,
            hop: self.hop,
            side: self.side,
            node: self.node,
            command: self.command.copy()?,
        })
    }
}

/// A leg that came back.
#[derive(Debug, Drop)]
pub struct LegBack {
    /// What was sent.
    pub sheet: LegSheet,
    /// What the node answered, or why none did.
    pub reply: LegReply,
}

impl LegBack {
    /// An equal value.
    pub fn copy(&self) -> Result<LegBack, AllocError>
        ensures { IfOk result (λ back. back ≡ self.now) }
    {
        Ok(LegBack {
            sheet: self.sheet.copy()?,
            reply: self.reply.copy()?,
        })
    }
}
