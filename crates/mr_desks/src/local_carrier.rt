//! A carrier that performs legs on a shared cache of the same process.
ghost use Rattle.std.specs.Prelude.{◌≡◌, Some, None, IfOk};
ghost use Rattle.mr_node.specs.Kinds.{IsOfKind};
ghost use Rattle.mr_desks.specs.Local.{IsReplyOfKind, CarriesLocally};

use crate::carrier::Carrier;
use crate::error::WorkerError;
use crate::shared_node::{NodeDesk, SharedNode};
use mr_clock::Clock;
use mr_join::LegReply;
use mr_node::{NodeCommand, Perform};
use mr_proxy::LegSheet;
use mr_text::Cause;
use std::alloc::AllocError;
use std::sync::Wait;

/// A carrier that performs each leg on a shared cache, at a reading of its own clock. It never fails: a fault of the clock
/// and want of memory are replies.
pub struct LocalCarrier<'a, K: Clock, R: Wait> {
    node: NodeDesk<'a, R>,
    clock: K,
}

impl<'a, K: Clock + Drop, R: Wait> Drop for LocalCarrier<'a, K, R> {
    fn drop(self) {
        let Self { node: _, clock: _ } = self;
    }
}

impl<'a, K: Clock, R: Wait> LocalCarrier<'a, K, R> {
    /// A carrier of this clock to the node.
    pub fn new(rt: &'a R, node: &'a SharedNode, clock: K) -> LocalCarrier<'a, K, R> {
        LocalCarrier {
            node: node.desk(rt),
            clock,
        }
    }

    /// Performs a command at a reading of the clock. A get isn't copied.
    fn perform(&mut self, now: u64, command: &NodeCommand) -> Result<LegReply, AllocError>
        ensures reply { IfOk result (IsOfKind command.now) }
        ensures clock { self.new.clock ≡ self.old.clock }
    {
        match command {
            NodeCommand::Get(key) => self.node.get(now, key),
            NodeCommand::Set { .. } | NodeCommand::Delete(_) => {
                self.node.perform(now, command.copy()?)
            }
        }
    }
}

impl<'a, K: Clock, R: Wait> Carrier for LocalCarrier<'a, K, R> {
    ghost gave = { IsReplyOfKind };

    ghost faults = { λ _. 0 };

    ghost carries = { λ old sheet reply new. CarriesLocally K.reads old.clock sheet reply new.clock };

    ghost loses = { λ _. tt };

    fn carry(&mut self, sheet: &LegSheet) -> Result<LegReply, WorkerError> {
        let Ok(now) = self.clock.now() else {
            return Ok(LegReply::Failed(Cause::ClockFault));
        };
        match self.perform(now, &sheet.command) {
            Ok(reply) => Ok(reply),
            Err(_) => Ok(LegReply::Failed(Cause::OutOfMemory)),
        }
    }
}
