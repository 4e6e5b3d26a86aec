//! Carriers over links to threads that own the connections.
ghost use Rattle.std.specs.Prelude.{◌≡◌, ◌+◌, ◌-◌, ⊤, IfSome, MatchOption, option_map};
ghost use Rattle.mr_desks.specs.Carriers.{unused, SendIs, ReceiveIs};
ghost use Rattle.mr_fleet.specs.Links.{HasLink};

use crate::links::Links;
use crossbeam_channel::Receiver;
use mr_desks::{Carried, Carrier, Carriers, GhostLegs};
use mr_proxy::Leg;
use mr_text::GhostCount;
use std::alloc::Global;
use std::collections::VecDeque;
use std::marker::Model;
use std::snapshot::Snapshot;
use std::sync::Wait;

/// What one session sends its legs through, where other threads own the connections. Each leg is sent with a channel of its
/// own for the reply, so that a leg that such a thread drops is lost and never waited for. Replies are received in the order
/// in which their legs were sent.
pub struct LinkCarriers<'a, C: Carrier, R: Wait> {
    rt: &'a R,
    alloc: Global,
    links: Links<C>,
    awaited: VecDeque<Receiver<Carried<C>>>,
    sent: GhostLegs,
    losses: GhostCount,
    brought: GhostCount,
}

impl<'a, C: Carrier, R: Wait> Drop for LinkCarriers<'a, C, R> {
    fn drop(self) {
        let Self {
            rt: _,
            alloc: _,
            links: _,
            awaited: _,
            sent: _,
            losses: _,
            brought: _,
        } = self;
    }
}

impl<'a, C: Carrier, R: Wait> Model for LinkCarriers<'a, C, R> {
    ghost use Rattle.mr_fleet.specs.Links.{LinkCarriersView};
    ghost use Rattle.std.specs.Prelude.{length};

    ghost Value = { LinkCarriersView };

    ghost view = { λ c. record {
      links = c.links;
      awaited = length c.awaited.items;
      told = record { sent = c.sent; losses = c.losses; brought = c.brought };
    } };
}

impl<'a, C: Carrier, R: Wait> LinkCarriers<'a, C, R> {
    /// Carriers over these links, which sent, lost and brought nothing yet. It takes no memory.
    pub(crate) fn new(rt: &'a R, alloc: Global, links: Links<C>) -> LinkCarriers<'a, C, R>
        ensures { result ≡ record { links = links; awaited = 0; told = unused } }
    {
        LinkCarriers {
            rt,
            alloc,
            links,
            awaited: VecDeque::new(alloc),
            sent: GhostLegs::new(),
            losses: GhostCount::new(),
            brought: GhostCount::new(),
        }
    }

    /// Sends a leg, and keeps the end at which its reply will come. One that can't be sent is handed back.
    fn send_on(&mut self, leg: Leg) -> Option<Leg>
        ensures leg { IfSome result (λ back. back ≡ leg) }
        ensures sent { MatchOption result (HasLink self.old.links leg) (λ _. ⊤) }
        ensures awaited { MatchOption result (self.new.awaited ≡ self.old.awaited + 1)
            (λ _. self.new.awaited ≡ self.old.awaited) }
        ensures links { self.new.links ≡ self.old.links }
        ensures told { self.new.told ≡ self.old.told }
    {
        if self.awaited.reserve(1).is_err() {
            return Some(leg);
        }
        match self.links.send(self.rt, self.alloc, leg) {
            Ok(came) => {
                self.awaited.push_back_reserved(came);
                None
            }
            Err(leg) => Some(leg),
        }
    }

    /// Waits for the reply to the oldest leg that is still awaited. None where none is, or where that leg was dropped.
    fn receive_next(&mut self) -> Option<Carried<C>>
        ensures awaited { MatchOption result
            (self.new.awaited ≡ self.old.awaited - 1)
            (λ _. self.new.awaited + 1 ≡ self.old.awaited) }
        ensures links { self.new.links ≡ self.old.links }
        ensures told { self.new.told ≡ self.old.told }
    {
        let came = self.awaited.pop_front()?;
        came.recv(self.rt).ok()
    }
}

impl<'a, C: Carrier, R: Wait> Carriers<C> for LinkCarriers<'a, C, R> {
    ghost told = { λ c. c.told };

    fn send(&mut self, leg: Leg) -> Option<Leg>
        ensures told { SendIs self.old.told leg (option_map (λ back. back) result) self.new.told }
        ensures sent { MatchOption result (HasLink self.old.links leg) (λ _. ⊤) }
        ensures awaited { MatchOption result
            (self.new.awaited ≡ self.old.awaited + 1)
            (λ _. self.new.awaited ≡ self.old.awaited) }
        ensures links { self.new.links ≡ self.old.links }
    {
        let sheet = Snapshot::of(leg.sheet());
        match self.send_on(leg) {
            None => {
                self.sent.add_remembered(sheet);
                None
            }
            Some(back) => {
                self.losses.add_one();
                Some(back)
            }
        }
    }

    fn receive(&mut self) -> Option<Carried<C>>
        ensures told { ReceiveIs self.old.told (option_map (λ carried. carried.back) result) self.new.told }
        ensures awaited { MatchOption result
            (self.new.awaited ≡ self.old.awaited - 1)
            (λ _. self.new.awaited + 1 ≡ self.old.awaited) }
        ensures links { self.new.links ≡ self.old.links }
    {
        match self.receive_next() {
            Some(carried) => {
                self.brought.add_one();
                Some(carried)
            }
            None => {
                self.losses.add_one();
                None
            }
        }
    }
}
