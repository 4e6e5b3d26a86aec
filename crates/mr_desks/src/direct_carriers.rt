//! Carriers that a session uses in its own thread.
ghost use Rattle.std.specs.Prelude.{◌≡◌, [], ◌∷◌, MatchOption, IfOk, IfErr, OnErr, map, option_map, slice_get, None};
ghost use Rattle.mr_desks.specs.Carriers.{unused, SendIs, ReceiveIs};
ghost use Rattle.mr_desks.specs.Direct.{NodeCarries, PlaceCarries, PoolCarries, LacksPlace, LacksCarrier, IsSentDirectly, IsHandedBack};

use crate::carried::Carried;
use crate::carrier::Carrier;
use crate::carriers::Carriers;
use crate::ghost_legs::GhostLegs;
use mr_proxy::Leg;
use mr_text::GhostCount;
use std::alloc::Global;
use std::collections::VecDeque;
use std::marker::Model;

/// Carriers that carry in the session's own thread, as a leg is sent: a list for each pool, the old one first, with one
/// carrier for each node. A leg whose carrier is missing is handed back, and a carrier that no leg names is never used.
pub struct DirectCarriers<C: Carrier> {
    pools: Vec<Vec<C>>,
    came: VecDeque<Carried<C>>,
    sent: GhostLegs,
    losses: GhostCount,
    brought: GhostCount,
}

impl<C: Carrier + Drop> Drop for DirectCarriers<C> {
    fn drop(self) {
        let Self {
            pools: _,
            came: _,
            sent: _,
            losses: _,
            brought: _,
        } = self;
    }
}

impl<C: Carrier> Model for DirectCarriers<C> {
    ghost use Rattle.mr_desks.specs.Direct.{DirectView};
    ghost use Rattle.std.specs.Prelude.{map};
    ghost use Rattle.std.specs.VecDeque.{deque_capacity};

    ghost Value = { DirectView C };

    ghost view = { λ c. record {
      pools = map (λ nodes. nodes.items) c.pools.items;
      came = map (λ carried. carried.back) c.came.items;
      room = deque_capacity c.came;
      told = record { sent = c.sent; losses = c.losses; brought = c.brought };
    } };
}

/// Carries a leg by the carrier of a node. A leg whose carrier is missing is handed back.
fn carry_to<C: Carrier>(nodes: &mut Vec<C>, node: usize, leg: Leg) -> Result<Carried<C>, Leg>
    ensures carried { IfOk result (λ carried.
        (carried.back.sheet ≡ leg) × NodeCarries C.carries C.faults node nodes.old.items carried.back nodes.new.items) }
    ensures back { IfErr result (λ back. (back ≡ leg) × (slice_get nodes.old.items node ≡ None)) }
    ensures unchanged { OnErr result (nodes.new.items ≡ nodes.old.items) }
{
    match nodes.get_mut(node) {
        Some(carrier) => Ok(Carried::of(carrier, leg)),
        None => Err(leg),
    }
}

/// Carries a leg by the carrier of a pool and a node. A leg whose carrier is missing is handed back.
fn carry_at<C: Carrier>(
    pools: &mut Vec<Vec<C>>,
    pool: usize,
    node: usize,
    leg: Leg,
) -> Result<Carried<C>, Leg>
    ensures carried { IfOk result (λ carried. (carried.back.sheet ≡ leg)
        × PlaceCarries C.carries C.faults pool node (map (λ nodes. nodes.items) pools.old.items) carried.back (map (λ nodes. nodes.items) pools.new.items)) }
    ensures back { IfErr result
        (λ back. (back ≡ leg) × LacksPlace (map (λ nodes. nodes.items) pools.old.items) pool node) }
    ensures unchanged { OnErr result
        (map (λ nodes. nodes.items) pools.new.items ≡ map (λ nodes. nodes.items) pools.old.items) }
{
    match pools.get_mut(pool) {
        Some(nodes) => carry_to(nodes, node, leg),
        None => Err(leg),
    }
}

/// Carries a leg by the carrier of the pool and the node that its sheet names. A leg whose carrier is missing is handed back.
fn carry<C: Carrier>(pools: &mut Vec<Vec<C>>, leg: Leg) -> Result<Carried<C>, Leg>
    ensures carried { IfOk result (λ carried. (carried.back.sheet ≡ leg)
        × PoolCarries C.carries C.faults (map (λ nodes. nodes.items) pools.old.items) carried.back (map (λ nodes. nodes.items) pools.new.items)) }
    ensures back { IfErr result (λ back. (back ≡ leg) × LacksCarrier (map (λ nodes. nodes.items) pools.old.items) leg) }
    ensures unchanged { OnErr result
        (map (λ nodes. nodes.items) pools.new.items ≡ map (λ nodes. nodes.items) pools.old.items) }
{
    let pool = leg.sheet().pool_number();
    let node = leg.sheet().node as usize;
    carry_at(pools, pool, node, leg)
}

impl<C: Carrier> DirectCarriers<C> {
    /// These carriers, through which nothing went yet. It takes no memory.
    pub fn new(alloc: Global, pools: Vec<Vec<C>>) -> DirectCarriers<C>
        ensures pools { result.pools ≡ map (λ nodes. nodes.items) pools.items }
        ensures came { result.came ≡ [] }
        ensures told { result.told ≡ unused }
    {
        DirectCarriers {
            pools,
            came: VecDeque::new(alloc),
            sent: GhostLegs::new(),
            losses: GhostCount::new(),
            brought: GhostCount::new(),
        }
    }
}

impl<C: Carrier> Carriers<C> for DirectCarriers<C> {
    ghost told = { λ c. c.told };

    /// Carries a leg, and keeps what came. A leg is handed back only where its carrier is missing, or where there is no room
    /// for what comes back and memory for it is refused.
    fn send(&mut self, leg: Leg) -> Option<Leg>
        ensures told { SendIs self.old.told leg (option_map (λ back. back) result) self.new.told }
        ensures sent { MatchOption result
            (IsSentDirectly C.carries C.faults self.old leg self.new)
            (λ _. IsHandedBack self.old leg self.new) }
    {
        if self.came.reserve(1).is_err() {
            self.losses.add_one();
            return Some(leg);
        }
        match carry(&mut self.pools, leg) {
            Ok(carried) => {
                self.sent.add(&carried.back().sheet);
                self.came.push_back_reserved(carried);
                None
            }
            Err(leg) => {
                self.losses.add_one();
                Some(leg)
            }
        }
    }

    /// The leg that came first of those that weren't received yet. None where there is none.
    fn receive(&mut self) -> Option<Carried<C>>
        ensures told { ReceiveIs self.old.told (option_map (λ carried. carried.back) result) self.new.told }
        ensures came { MatchOption result
            ((self.old.came ≡ []) × (self.new.came ≡ []))
            (λ carried. self.old.came ≡ carried.back ∷ self.new.came) }
        ensures pools { self.new.pools ≡ self.old.pools }
        ensures room { self.new.room ≡ self.old.room }
    {
        match self.came.pop_front() {
            Some(carried) => {
                self.brought.add_one();
                Some(carried)
            }
            None => {
                self.losses.add_one();
                None
            }
        }
    }
}
