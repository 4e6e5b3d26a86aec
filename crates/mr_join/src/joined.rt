//! The replies of all sides that were awaited.
ghost use Rattle.std.specs.Prelude.{◌≡◌, Some, IfOk};
ghost use Rattle.mr_join.specs.Join.{worst_of};

use crate::badness::worse;
use crate::leg_reply::LegReply;
use mr_phases::Side;
use std::alloc::AllocError;
use std::marker::Model;

#[derive(Debug, Drop)]
enum Came {
    OneSide(Side, LegReply),
    BothSides { old: LegReply, new: LegReply },
}

/// What each side that was awaited answered: one side's reply, or both sides'.
#[derive(Debug, Drop)]
pub struct Joined {
    came: Came,
}

impl Model for Joined {
    ghost use Rattle.mr_join.specs.Sides.{SideReplies};

    ghost Value = { SideReplies };

    ghost use Rattle.mr_join.specs.Came.{replies_in};

    ghost view = { λ j. replies_in j.came };
}

impl Joined {
    ghost use Rattle.mr_join.specs.Sides.{no_replies, with_side_reply, in_order};

    /// One side's reply, where it alone was awaited.
    pub(crate) fn of_one(side: Side, reply: LegReply) -> Joined
        ensures { result ≡ with_side_reply no_replies side reply }
    {
        Joined {
            came: Came::OneSide(side, reply),
        }
    }

    /// Both sides' replies.
    pub(crate) fn of_both(old: LegReply, new: LegReply) -> Joined
        ensures { result ≡ record { old = Some old; new = Some new } }
    {
        Joined {
            came: Came::BothSides { old, new },
        }
    }

    /// Lends the reply of greatest badness, and of two that are as bad the old side's, whichever came first.
    pub fn worst(&self) -> &LegReply
        ensures { worst_of (in_order self.now) ≡ Some result.now }
    {
        match &self.came {
            Came::OneSide(_, reply) => reply,
            Came::BothSides { old, new } => {
                if old.badness() < new.badness() {
                    new
                } else {
                    old
                }
            }
        }
    }

    /// Gives that reply.
    pub fn into_worst(self) -> LegReply
        ensures { worst_of (in_order self) ≡ Some result }
    {
        match self.came {
            Came::OneSide(_, reply) => reply,
            Came::BothSides { old, new } => worse(old, new),
        }
    }

    /// An equal value.
    pub fn copy(&self) -> Result<Joined, AllocError>
        ensures { IfOk result (λ joined. joined ≡ self.now) }
    {
        let came = match &self.came {
            Came::OneSide(side, reply) => Came::OneSide(*side, reply.copy()?),
            Came::BothSides { old, new } => Came::BothSides {
                old: old.copy()?,
                new: new.copy()?,
            },
        };
        Ok(Joined { came })
    }
}
