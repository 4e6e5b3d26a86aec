//! What the steps of a cache on its list of items say of the items alone, whatever their order and their expiry.
ghost use Rattle.std.specs.Prelude.{◌≡◌, ℕ, List, [], None};
ghost use Rattle.mr_join.specs.declared.leg_reply.LegReply.{LegReply};
ghost use Rattle.mr_node.specs.declared.command.NodeCommand.{NodeCommand};
ghost use Rattle.mr_node.specs.Recency.{CacheView, RecencyStep};
ghost use Rattle.mr_node.specs.CacheStep.{CacheStep, contents_of};

/// Each step on the list is one on its map from keys to flags and data.
pub fn recency_step_is_cache_step()
    ensures { (old new : CacheView) (now : ℕ) (command : NodeCommand) (reply : LegReply)
        → RecencyStep old now command reply new → CacheStep (contents_of old.items) command reply (contents_of new.items) }
{}

/// After a restart nothing is kept under any key.
pub fn restart_keeps_nothing()
    ensures { (key : List ℕ) → contents_of [] key ≡ None }
{}
