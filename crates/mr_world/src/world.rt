//! A fleet that is played event by event.
ghost use Rattle.std.specs.Prelude.{◌≡◌, ◌⊎◌, ◌^◌, ◌<◌, [], ◌∷◌, length, take, None, IfOk, IfErr, OnErr};

use crate::event::Event;
use crate::laws::{
    runs_keep_secured, runs_show_facts, runs_tell_premises, secured_fleets_show_ground,
    setups_begin_faithful, setups_begin_secured, setups_begin_tracked, setups_tell_premises,
    steps_keep_faithful, steps_keep_secured, steps_keep_tracked,
};
use crate::message::{Delivery, Message};
use crate::network::Network;
use crate::note::Note;
use crate::premises::Premises;
use crate::setup::Setup;
use mr_history::History;
use mr_proxy::WorldError;
use std::alloc::Global;
use std::marker::Model;

/// A fleet of proxies, its nodes, and all that was ever sent between them.
#[derive(Drop)]
pub struct World {
    network: Network,
}

impl Model for World {
    ghost use Rattle.mr_world.specs.Network.{IsReady};
    ghost use Rattle.mr_world.specs.WorldView.{WorldView};

    ghost Value = { WorldView };

    ghost view = { λ w. w.network.world };

    ghost invariant = { λ w. IsReady w.network };
}

impl World {
    ghost use Rattle.mr_world.specs.Facts.{Facts, IsFaithfulWorld};
    ghost use Rattle.mr_world.specs.Grounded.{StaysSecured};
    ghost use Rattle.mr_world.specs.Headline.{DeletesHold, StandsOnGround};
    ghost use Rattle.mr_world.specs.Premises.{premises_of, PremisesAtFirst, PremisesAfter};
    ghost use Rattle.mr_world.specs.Refusals.{refusal_of_event, IsEventRefusal, IsStopped};
    ghost use Rattle.mr_world.specs.Setup.{CanBeMade, RefusesSetup, Begins};
    ghost use Rattle.mr_world.specs.Steps.{WorldStep, WorldRun};
    ghost use Rattle.mr_world.specs.Tracked.{IsTracked};

    /// The fleet of a setup. Refusals, in this order: HopsDiffer where a proxy's routing has other pools than its schedule
    /// has hops for; NoSuchNode where an item is held by a node that no proxy's routing names, or where there are nodes of
    /// capacity 0; OutOfMemory.
    pub fn new(alloc: Global, setup: Setup) -> Result<World, WorldError>
        requires { length setup.proxies < 2 ^ 32 }
        ensures begins { IfOk result (λ world. CanBeMade setup × Begins setup world) }
        ensures premises { IfOk result (λ world. PremisesAtFirst setup (premises_of world)) }
        ensures facts { IfOk result (λ world. Facts world) }
        ensures ground { IfOk result (λ world. StandsOnGround world) }
        ensures safe { IfOk result (λ world. DeletesHold world) }
        ensures refused { IfErr result (RefusesSetup setup) }
    {
        setups_begin_tracked();
        setups_begin_faithful();
        setups_begin_secured();
        secured_fleets_show_ground();
        setups_tell_premises();
        let network = Network::new(alloc, setup)?;
        Ok(World { network })
    }

    /// Plays an event, and tells what became of it. A refused event changes nothing. Refusals are tried in the order
    /// NoSuchProxy, NoSuchNode, NoSuchMessage or NoSuchOp, IssueRefused, OutOfMemory; IssueRefused never carries
    /// OutOfMemory.
    pub fn step(&mut self, event: Event) -> Result<Note, WorldError>
        ensures accepted { IfOk result
            (λ note. (refusal_of_event self.old event ≡ None) × WorldStep self.old event note self.new) }
        ensures refused { IfErr result (λ e. IsEventRefusal (refusal_of_event self.old event) event e) }
        ensures unchanged { OnErr result (self.new ≡ self.old) }
        ensures premises { IfOk result (λ _. PremisesAfter self.old (event ∷ []) (premises_of self.new)) }
        ensures facts { Facts self.new }
        ensures ground { StandsOnGround self.new }
        ensures safe { DeletesHold self.new }
    {
        steps_keep_tracked();
        steps_keep_faithful();
        steps_keep_secured();
        secured_fleets_show_ground();
        runs_tell_premises();
        self.network.step(event)
    }

    /// Plays events in order. It stops at the first that is refused, and tells its index and why.
    pub fn run(&mut self, events: Vec<Event>) -> Result<(), (usize, WorldError)>
        ensures played { IfOk result (λ _. WorldRun self.old events.items self.new) }
        ensures premises { IfOk result (λ _. PremisesAfter self.old events.items (premises_of self.new)) }
        ensures stopped { IfErr result (λ stop. IsStopped self.old events.items stop.0 stop.1 self.new) }
        ensures premises_then { IfErr result
            (λ stop. PremisesAfter self.old (take stop.0 events.items) (premises_of self.new)) }
        ensures facts { Facts self.new }
        ensures ground { StandsOnGround self.new }
        ensures safe { DeletesHold self.new }
    {
        runs_tell_premises();
        runs_show_facts();
        runs_keep_secured();
        secured_fleets_show_ground();
        self.is_in_order();
        let mut index = 0;
        for event in events {
            if let Err(refusal) = self.step(event) {
                return Err((index, refusal));
            }
            index += 1;
        }
        Ok(())
    }

    /// A world is in order, shows what every fleet does, and is secured as long as its premises hold: what its type keeps.
    fn is_in_order(&self)
        ensures tracked { IsTracked self.now }
        ensures faithful { IsFaithfulWorld self.now }
        ensures secured { StaysSecured self.now }
    {
        let _ = &self.network;
    }

    /// What happened so far.
    pub fn history(&self) -> &History
        ensures { result.now.entries ≡ self.now.history }
    {
        self.network.history()
    }

    /// Each message that was ever sent, by its number.
    pub fn sent(&self) -> &[Message]
        ensures { result.now ≡ self.now.sent }
    {
        self.network.sent()
    }

    /// Each delivery that was ever made, by the number of its reply.
    pub fn replies(&self) -> &[Delivery]
        ensures { result.now ≡ self.now.replies }
    {
        self.network.replies()
    }

    /// Whether the premises hold under which acknowledged deletes hold: of the setup, of the first readings and of the
    /// events that were accepted so far. It takes no memory.
    pub fn premises(&self) -> Premises
        ensures { result ≡ premises_of self.now }
    {
        self.network.premises()
    }
}
