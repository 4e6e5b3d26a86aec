//! What the joined reply says of the replies that went into it.
ghost use Rattle.std.specs.Prelude.{◌≡◌, ℕ, List, Some, All, Ok};
ghost use Rattle.mr_text.specs.declared.item.Item.{Item};
ghost use Rattle.mr_text.specs.declared.request.Request.{Request};
ghost use Rattle.mr_text.specs.declared.reply.Reply.TheVariants.{Items};
ghost use Rattle.mr_join.specs.declared.leg_reply.LegReply.{LegReply};
ghost use Rattle.mr_join.specs.Join.{worst_of, joined_reply, IsWorst, AreHits, Acknowledges, HasSucceeded};

/// The worst reply is one of the replies, none is worse, and those before it are less bad.
pub fn worst_is_first_of_greatest()
    ensures { (replies : List LegReply) (worst : LegReply) → worst_of replies ≡ Some worst → IsWorst replies worst }
{}

/// Each item of an answer is what a leg of that get found under the key that the leg asked for.
pub fn items_are_hits()
    ensures { (request : Request) (replies : List LegReply) (items : List Item)
        → joined_reply request replies ≡ Items items
        → AreHits request replies items }
{}

/// A delete is acknowledged only where no leg of it failed.
pub fn acknowledged_by_all()
    ensures { (request : Request) (replies : List LegReply) → Acknowledges (joined_reply request replies)
        → All HasSucceeded replies }
{}
