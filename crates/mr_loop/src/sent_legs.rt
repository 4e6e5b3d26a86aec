//! What went over a link and has no reply yet, in the order in which it went: a leg by itself, or the gets of one request together.
ghost use Rattle.std.specs.Prelude.{◌≡◌, ◌-◌, [], ◌∷◌, ◌++◌, length, take, slice_get, MatchOption, IfSome, ◌≤◌, OnOk, OnErr};
ghost use Rattle.std.specs.Option.{option_copied};

use mr_proxy::Leg;
use std::alloc::{AllocError, Global};
use std::collections::VecDeque;
use std::marker::Model;

/// The most lists that are spare.
const MOST_LISTS: usize = 16;
/// Room for the most legs that a spare list has.
const MOST_LEGS: usize = 64;

/// Legs that travel behind another one, in one request to their node.
#[derive(Debug, Drop)]
pub struct MoreLegs {
    legs: Vec<Leg>,
}

impl Model for MoreLegs {
    ghost use Rattle.std.specs.Prelude.{List};
    ghost use Rattle.mr_proxy.specs.declared.sheet.LegSheet.{LegSheet};

    ghost Value = { List LegSheet };

    ghost view = { λ m. m.legs.items };
}

impl MoreLegs {
    /// None. It takes no memory.
    #[inline(always)]
    pub fn new(alloc: Global) -> MoreLegs
        ensures { result ≡ [] }
    {
        MoreLegs {
            legs: Vec::new(alloc),
        }
    }

    /// The legs in order.
    #[inline(always)]
    pub fn as_slice(&self) -> &[Leg]
        ensures { result.now ≡ self.now }
    {
        self.legs.as_slice()
    }

    /// One more leg behind the others; the first takes the memory of a list that is spare. For want of memory nothing changes.
    #[inline(always)]
    pub(crate) fn push(&mut self, spares: &mut SpareLists, leg: Leg) -> Result<(), AllocError>
        ensures pushed { OnOk result (self.new ≡ self.old ++ leg ∷ []) }
        ensures unchanged { OnErr result (self.new ≡ self.old) }
    {
        if self.legs.is_empty() {
            if let Some(legs) = spares.take() {
                self.legs = legs;
            }
        }
        self.legs.push(leg)?;
        Ok(())
    }
}

/// Lists whose legs have had their reply, for the memory of later ones.
#[derive(Debug, Drop)]
pub(crate) struct SpareLists {
    lists: Vec<Vec<Leg>>,
}

impl SpareLists {
    /// None. It takes no memory.
    pub(crate) fn new(alloc: Global) -> SpareLists {
        SpareLists {
            lists: Vec::new(alloc),
        }
    }

    /// A list without legs, if one is spare. It takes no memory.
    #[inline(always)]
    fn take(&mut self) -> Option<Vec<Leg>>
        ensures { IfSome result (λ legs. legs.items ≡ []) }
    {
        let mut legs = self.lists.pop()?;
        legs.clear();
        Some(legs)
    }

    /// Legs are done with: the memory of their list is kept, unless as much is kept already, or it is large.
    #[inline(always)]
    pub(crate) fn keep(&mut self, done: MoreLegs)
        ensures { length self.old.lists.items ≤ 16 → length self.new.lists.items ≤ 16 }
    {
        let MoreLegs { legs } = done;
        if legs.capacity() == 0 || legs.capacity() > MOST_LEGS || self.lists.len() >= MOST_LISTS {
            return;
        }
        let _ = self.lists.push(legs);
    }
}

/// A leg that went over a link, with those that went in the same request to its node: gets, as it is then.
#[derive(Debug, Drop)]
pub struct SentLeg {
    /// The place of the client whose request they are of.
    pub client: usize,
    /// When they went, in microseconds.
    pub sent_at: u64,
    /// The leg.
    pub leg: Leg,
    /// The gets behind it.
    pub others: MoreLegs,
}

impl SentLeg {
    /// Those that travelled with it.
    #[inline(always)]
    pub(crate) fn into_others(self) -> MoreLegs {
        let SentLeg {
            client: _,
            sent_at: _,
            leg: _,
            others,
        } = self;
        others
    }
}

/// The legs that went over a link and that no reply came for. A node answers in order, so the next reply is the first one's.
#[derive(Drop)]
pub struct SentLegs {
    queue: VecDeque<SentLeg>,
}

impl Model for SentLegs {
    ghost use Rattle.std.specs.Prelude.{List};
    ghost use Rattle.mr_loop.specs.declared.sent_legs.SentLeg.{SentLeg};

    ghost Value = { List SentLeg };

    ghost view = { λ s. s.queue.items };
}

impl SentLegs {
    /// No leg.
    pub fn new(alloc: Global) -> SentLegs
        ensures { result ≡ [] }
    {
        SentLegs {
            queue: VecDeque::new(alloc),
        }
    }

    /// How many replies are awaited.
    #[inline(always)]
    pub fn len(&self) -> usize
        ensures { result ≡ length self.now }
    {
        self.queue.len()
    }

    /// Lends the leg that the next reply is of.
    #[inline(always)]
    pub fn first(&self) -> Option<&SentLeg>
        ensures { option_copied result ≡ slice_get self.now 0 }
    {
        self.queue.front()
    }

    /// One more leg behind the others. For want of memory nothing changes.
    #[inline(always)]
    pub(crate) fn push(&mut self, sent: SentLeg) -> Result<(), AllocError>
        ensures pushed { OnOk result (self.new ≡ self.old ++ sent ∷ []) }
        ensures unchanged { OnErr result (self.new ≡ self.old) }
    {
        self.queue.push_back(sent)?;
        Ok(())
    }

    /// The leg that was pushed last leaves.
    pub(crate) fn pop_last(&mut self)
        ensures { self.new ≡ take (length self.old - 1) self.old }
    {
        let _ = self.queue.pop_back();
    }

    /// Takes the leg out that the next reply is of.
    #[inline(always)]
    pub(crate) fn pop(&mut self) -> Option<SentLeg>
        ensures { MatchOption result ((self.old ≡ []) × (self.new ≡ [])) (λ sent. self.old ≡ sent ∷ self.new) }
    {
        self.queue.pop_front()
    }
}
