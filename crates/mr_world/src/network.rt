//! A fleet whose calls are exactly the steps of its definition.
ghost use Rattle.std.specs.Prelude.{◌≡◌};

mod asking;
mod delivering;
mod making;
mod restarting;
mod returning;

use crate::event::Event;
use crate::message::{Delivery, Message};
use crate::nodes::Nodes;
use crate::note::Note;
use crate::numbers::NodeNumbers;
use crate::premises::Premises;
use crate::terms::Terms;
use mr_clock::Readings;
use mr_history::{Entry, History};
use mr_proxy::{ProxyCore, WorldError};
use std::marker::Model;

/// The proxies and nodes of a fleet, and what was ever sent between them.
#[derive(Drop)]
pub(crate) struct Network {
    readings: Readings,
    proxies: Vec<ProxyCore>,
    numbers: Vec<NodeNumbers>,
    nodes: Nodes,
    sent: Vec<Message>,
    replies: Vec<Delivery>,
    history: History,
    terms: Terms,
}

impl Model for Network {
    ghost use Rattle.mr_world.specs.Network.{NetworkView};

    ghost Value = { NetworkView };

    ghost view = { λ n. record {
      world = record {
        readings = n.readings;
        proxies = n.proxies.items;
        nodes = n.nodes;
        sent = n.sent.items;
        replies = n.replies.items;
        history = n.history.entries;
        terms = n.terms;
      };
      numbers = n.numbers.items;
    } };
}

impl Network {
    ghost use Rattle.mr_world.specs.Network.{IsReady, DoesEvent};
    ghost use Rattle.mr_world.specs.Premises.{premises_of};

    /// Plays an event, or refuses it and changes nothing.
    pub(crate) fn step(&mut self, event: Event) -> Result<Note, WorldError>
        requires { IsReady self.old }
        ensures { DoesEvent self.old event result self.new }
    {
        match event {
            Event::Clock { proxy, reading } => self.set_clock(proxy, reading),
            Event::Client { proxy, request } => self.ask(proxy, request),
            Event::Deliver { message, now } => self.deliver(message, now),
            Event::Return { reply } => self.take_back(reply),
            Event::GiveUp { op } => self.give_up(op),
            Event::NodeRestart { node } => self.restart_node(&node),
            Event::ProxyRestart { proxy } => self.restart_proxy(proxy),
        }
    }

    /// What happened so far.
    pub(crate) fn history(&self) -> &History
        ensures { result.now.entries ≡ self.now.world.history }
    {
        &self.history
    }

    /// Each message that was ever sent.
    pub(crate) fn sent(&self) -> &[Message]
        ensures { result.now ≡ self.now.world.sent }
    {
        self.sent.as_slice()
    }

    /// Each delivery that was ever made.
    pub(crate) fn replies(&self) -> &[Delivery]
        ensures { result.now ≡ self.now.world.replies }
    {
        self.replies.as_slice()
    }

    /// Whether the premises hold.
    pub(crate) fn premises(&self) -> Premises
        ensures { result ≡ premises_of self.now.world }
    {
        Premises {
            same: self.terms.same,
            new_empty: self.terms.new_empty,
            forward: !self.readings.went_back(),
            near: self.readings.spread() <= self.terms.least,
        }
    }
}
