//! What carries legs to nodes and brings back the replies.
ghost use Rattle.std.specs.Prelude.{◌≡◌, ℕ, ◌+◌, Option, Some, None, IfOk, MatchResult};
ghost use Rattle.mr_text.specs.declared.cause.Cause.TheVariants.{LegLost};
ghost use Rattle.mr_join.specs.declared.leg_reply.LegReply.{LegReply};
ghost use Rattle.mr_join.specs.declared.leg_reply.LegReply.TheVariants.{Failed};
ghost use Rattle.mr_proxy.specs.declared.sheet.LegSheet.{LegSheet};

use crate::error::WorkerError;
use mr_join::LegReply;
use mr_proxy::LegSheet;

/// What carries legs to one node.
pub trait Carrier {
    /// The replies that may come back for a sheet, whatever was carried before.
    ghost gave: { LegSheet → LegReply → Type 0 };

    /// How often a leg wasn't carried.
    ghost faults: { Self → ℕ };

    /// What one call of `carry` does: the carrier before it, the sheet, the reply or none at a fault, and the carrier after
    /// it. Code that is generic over a carrier can show it in no other way than by that one call.
    ghost carries: { Self → LegSheet → Option LegReply → Self → Type 0 };

    /// Carries a leg to the node, and gives the node's reply.
    fn carry(&mut self, sheet: &LegSheet) -> Result<LegReply, WorkerError>
        ensures gave { IfOk result (λ reply. gave sheet.now reply) }
        ensures carries { MatchResult result
            (λ reply. carries self.old sheet.now (Some reply) self.new)
            (λ _. carries self.old sheet.now None self.new) }
        ensures faults { MatchResult result
            (λ _. faults self.new ≡ faults self.old)
            (λ _. faults self.new ≡ faults self.old + 1) };

    /// Each leg may be lost.
    ghost loses: { (sheet : LegSheet) → gave sheet (Failed LegLost) };
}
