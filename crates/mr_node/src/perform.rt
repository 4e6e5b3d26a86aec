//! What a node is to those that serve it: a cache of one thread, or one that many threads share.
ghost use Rattle.std.specs.Prelude.{ℕ, MatchResult};
ghost use Rattle.mr_node.specs.Outcome.{Did, Refused};
ghost use Rattle.mr_join.specs.declared.leg_reply.LegReply.{LegReply};
ghost use Rattle.mr_node.specs.Kinds.{IsOfKind};
ghost use Rattle.mr_node.specs.declared.command.NodeCommand.{NodeCommand};
ghost use Rattle.mr_node.specs.declared.command.NodeCommand.TheVariants.{Get};

use crate::command::NodeCommand;
use mr_join::LegReply;
use mr_text::Key;
use std::alloc::AllocError;

/// What performs commands, as a cache does.
pub trait Perform {
    /// What a command does: the state before it, the reading of the clock in seconds since the epoch, the command, the
    /// reply, and the state after it.
    ghost did: { Did Self };

    /// What a command leaves for which memory was refused: the state before it, the reading, the command, and the
    /// state after it.
    ghost refused: { Refused Self };

    /// Performs a command at a reading of the clock, in seconds since the epoch.
    fn perform(&mut self, now: u64, command: NodeCommand) -> Result<LegReply, AllocError>
        ensures { MatchResult result
            (λ reply. did self.old now command reply self.new)
            (λ _. refused self.old now command self.new) };

    /// Performs a get of a lent key, as `perform` does.
    fn get(&mut self, now: u64, key: &Key) -> Result<LegReply, AllocError>
        ensures { MatchResult result
            (λ reply. did self.old now (Get key.now) reply self.new)
            (λ _. refused self.old now (Get key.now) self.new) };

    /// A command gets a reply of its own kind, or fails.
    ghost of_kind: { (old : Self) (now : ℕ) (command : NodeCommand) (reply : LegReply) (new : Self)
        → did old now command reply new → IsOfKind command reply };
}
