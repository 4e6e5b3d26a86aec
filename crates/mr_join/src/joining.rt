//! A join under way, as a type by the number of sides that are to answer yet.
ghost use Rattle.std.specs.Prelude.{◌≡◌, [], ◌∷◌, IfOk, IfErr};

use crate::joined::Joined;
use crate::leg_reply::LegReply;
use mr_phases::Side;
use std::alloc::AllocError;
use std::marker::Model;

/// Both sides are to answer yet.
#[derive(Clone, Copy, Debug)]
pub struct Two;

/// One side is to answer yet. The other one did, or isn't awaited.
#[derive(Debug, Drop)]
pub struct One {
    awaited: Side,
    other: Option<LegReply>,
}

impl Model for Two {
    ghost use Rattle.std.specs.Prelude.{[], ◌∷◌};
    ghost use Rattle.mr_phases.specs.declared.side.Side.TheVariants.{Old, New};
    ghost use Rattle.mr_join.specs.Sides.{JoiningView, no_replies};

    ghost Value = { JoiningView };

    ghost view = { λ _. record { awaits = Old ∷ New ∷ []; came = no_replies } };

    ghost inverse = { λ _. record {} };
}

impl Model for One {
    ghost use Rattle.std.specs.Prelude.{[], ◌∷◌};
    ghost use Rattle.mr_join.specs.Sides.{JoiningView, came_from, other_side};

    ghost Value = { JoiningView };

    ghost view = { λ o. record { awaits = o.awaited ∷ []; came = came_from (other_side o.awaited) o.other } };
}

/// A join of the replies of a request's legs. `Joining<Two>` becomes `Joining<One>` by a first reply, and that becomes
/// `Joined` by the reply of the side that is left: one reply alone can't finish what awaits two.
///
/// It is for whoever holds the two legs of one delete by their sides. A proxy doesn't: an answer lends its legs with their
/// replies as one list, which a session compares with where its legs went, and a join has no such list. So a delete under
/// way keeps its replies beside its legs, and no code of the program makes a `Joining`.
#[derive(Debug, Drop)]
pub struct Joining<S> {
    state: S,
}

impl<S> Model for Joining<S> {
    ghost Value = { S };

    ghost view = { λ j. j.state };
}

impl Joining<Two> {
    ghost use Rattle.mr_phases.specs.declared.side.Side.TheVariants.{Old, New};
    ghost use Rattle.mr_join.specs.Sides.{no_replies, with_side_reply, other_side};

    /// Awaits both sides.
    pub fn two() -> Joining<Two>
        ensures awaits { result.awaits ≡ Old ∷ New ∷ [] }
        ensures came { result.came ≡ no_replies }
    {
        Joining { state: Two }
    }

    /// Takes the first reply, of either side; the other side is awaited from then on.
    pub fn take(self, side: Side, reply: LegReply) -> Joining<One>
        ensures awaits { result.awaits ≡ other_side side ∷ [] }
        ensures came { result.came ≡ with_side_reply no_replies side reply }
    {
        let awaited = match side {
            Side::Old => Side::New,
            Side::New => Side::Old,
        };
        Joining {
            state: One {
                awaited,
                other: Some(reply),
            },
        }
    }

    /// An equal join. It takes no memory.
    pub fn copy(&self) -> Result<Joining<Two>, AllocError>
        ensures { IfOk result (λ joining. joining ≡ self.now) }
    {
        Ok(Joining { state: self.state })
    }
}

impl Joining<One> {
    ghost use Rattle.mr_join.specs.Sides.{no_replies, with_side_reply};

    /// Awaits that side alone.
    pub fn one(side: Side) -> Joining<One>
        ensures awaits { result.awaits ≡ side ∷ [] }
        ensures came { result.came ≡ no_replies }
    {
        Joining {
            state: One {
                awaited: side,
                other: None,
            },
        }
    }

    /// Takes the last reply. Where its side isn't the one awaited, both are handed back as they were.
    pub fn take(self, side: Side, reply: LegReply) -> Result<Joined, (Joining<One>, LegReply)>
        ensures joined { IfOk result
            (λ joined. (self.awaits ≡ side ∷ []) × (joined ≡ with_side_reply self.came side reply)) }
        ensures refused { IfErr result (λ back. (¬ (self.awaits ≡ side ∷ [])) × (back.0 ≡ self) × (back.1 ≡ reply)) }
    {
        if side != self.state.awaited {
            return Err((self, reply));
        }
        let One { awaited, other } = self.state;
        let Some(other) = other else {
            return Ok(Joined::of_one(awaited, reply));
        };
        Ok(match awaited {
            Side::Old => Joined::of_both(reply, other),
            Side::New => Joined::of_both(other, reply),
        })
    }

    /// An equal join.
    pub fn copy(&self) -> Result<Joining<One>, AllocError>
        ensures { IfOk result (λ joining. joining ≡ self.now) }
    {
        let other = match &self.state.other {
            Some(reply) => Some(reply.copy()?),
            None => None,
        };
        Ok(Joining {
            state: One {
                awaited: self.state.awaited,
                other,
            },
        })
    }
}
