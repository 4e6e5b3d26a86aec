//! The link to one node: the legs that went over it, and what comes back.
ghost use Rattle.std.specs.Prelude.{◌≡◌, ◌≢◌, ◌-◌, ◌≤◌, true, false, [], ◌∷◌, ◌++◌, length, take, IsTrue, IfOk, OnOk, OnErr};
ghost use Rattle.mr_loop.specs.Events.{after_all};
ghost use Rattle.mr_loop.specs.Counts.{no_link_counts, dial_counted};
ghost use Rattle.mr_loop.specs.Links.{up_link, down_link, with_leg, after_sending};
ghost use Rattle.mr_loop.specs.Returning.{TakesBytes, Breaks, give_ups};
ghost use Rattle.mr_loop.specs.Ticking.{is_late};
ghost use Rattle.mr_loop.specs.steps.Returning.{TakesReplies};
ghost use Rattle.mr_loop.specs.steps.Sending.{without_last};

use crate::complaint::is_complaint;
use crate::front::Front;
use crate::link_counts::LinkCounts;
use crate::out_buffer::OutBuffer;
use crate::sending::Mark;
use crate::sent_legs::{SentLeg, SentLegs, SpareLists};
use crate::taking::take_reply;
use mr_text::{FixedBuffer, ReplyReader, TextError};
use std::alloc::{AllocError, Global};

/// How a link stands once it has taken bytes. All but the first and the last have broken it.
#[derive(Clone, Copy, Debug, PartialEq, Eq)]
pub enum LinkEnd {
    /// All replies that are whole were taken.
    Whole,
    /// A reply came that no leg awaits.
    Surplus,
    /// A reply is no answer to its leg.
    Mismatch,
    /// The node doesn't know what it was asked.
    Complaint,
    /// What came is no reply, or memory for it was refused.
    Refused(TextError),
    /// The link wasn't up: nothing was taken.
    Down,
}

/// The link to one node.
#[derive(Drop)]
pub struct Link {
    /// Whether there is a connection.
    pub is_up: bool,
    /// The bytes that came and that no reply has taken.
    pub reader: ReplyReader,
    /// The legs that went and that no reply came for.
    pub legs: SentLegs,
    /// The bytes that are to be written.
    pub out: OutBuffer,
    /// What is counted of it, over all of its connections.
    pub counts: LinkCounts,
}

impl Link {
    /// A link that isn't up yet.
    pub fn new(alloc: Global) -> Link
        ensures { result ≡ down_link no_link_counts }
    {
        Link {
            is_up: false,
            reader: ReplyReader::new(alloc),
            legs: SentLegs::new(alloc),
            out: OutBuffer::of_link(alloc),
            counts: LinkCounts::new(),
        }
    }

    /// A leg goes behind those that went, with those that travel with it, where the link is up; else they are lost. Whether they
    /// went. For want of memory nothing changes.
    #[inline(always)]
    pub(crate) fn carry(
        &mut self,
        buffer: &mut FixedBuffer,
        sent: SentLeg,
    ) -> Result<bool, AllocError>
        ensures went { IfOk result (λ went. went ≡ self.old.is_up) }
        ensures carried { OnOk result (self.new ≡ after_sending sent self.old) }
        ensures unchanged { OnErr result (self.new ≡ self.old) }
    {
        if !self.is_up {
            self.counts.add_unsent(&sent);
            return Ok(false);
        }
        self.send(buffer, sent)?;
        Ok(true)
    }

    /// Puts a leg and those that travel with it behind those that went, and the request for them behind theirs. For want of memory
    /// nothing changes.
    #[inline(always)]
    fn send(&mut self, buffer: &mut FixedBuffer, sent: SentLeg) -> Result<(), AllocError>
        ensures sent { OnOk result (self.new ≡ with_leg sent self.old) }
        ensures unchanged { OnErr result (self.new ≡ self.old) }
    {
        let before = self.out.len();
        self.out.put_legs(&sent, buffer)?;
        if self.legs.push(sent).is_err() {
            self.out.cut(before);
            return Err(AllocError);
        }
        Ok(())
    }

    /// The link stands again as before the leg that a mark is of.
    pub(crate) fn take_back(&mut self, mark: Mark)
        ensures { self.new ≡ without_last mark self.old }
    {
        if self.is_up {
            self.legs.pop_last();
            self.out.cut(mark.count);
        } else {
            self.counts.lost = mark.lost;
        }
    }

    /// Whether the first leg went longer ago than the bound allows.
    pub(crate) fn is_late(&self, bound: u64, now: u64) -> bool
        ensures { result ≡ is_late bound now self.now }
    {
        match self.legs.first() {
            None => false,
            Some(sent) => now.saturating_sub(sent.sent_at) > bound,
        }
    }

    /// The link broke at this time: the request of each leg in its queue is given up, in order, and what came of a reply or is
    /// to be written is gone.
    pub(crate) fn break_off(&mut self, alloc: Global, front: &mut Front, now: u64)
        ensures { Breaks now self.old front.old self.new front.new }
    {
        while let Some(sent) = self.legs.pop() {
            self.counts.add_lost(now, &sent);
            front.give_up(sent.client, sent.leg.sheet().id.op);
        }
        self.counts.add_break(self.is_up);
        self.is_up = false;
        self.reader = ReplyReader::new(alloc);
        self.out.clear();
    }

    /// Takes the replies that are whole, each as that of the first leg that has none, and of those that travelled with it.
    #[inline(always)]
    fn take_replies(
        &mut self,
        alloc: Global,
        front: &mut Front,
        spares: &mut SpareLists,
        now: u64,
    ) -> LinkEnd
        ensures { TakesReplies now self.old front.old result self.new front.new }
    {
        'reply: loop {
            match self.reader.next() {
                Ok(Some(reply)) => {
                    let complains = is_complaint(&reply);
                    let Some(sent) = self.legs.pop() else {
                        return LinkEnd::Surplus;
                    };
                    if !take_reply(alloc, front, &sent, reply) {
                        self.counts.add_lost(now, &sent);
                        front.give_up(sent.client, sent.leg.sheet().id.op);
                        return LinkEnd::Mismatch;
                    }
                    self.counts.add_carried(now, &sent);
                    spares.keep(sent.into_others());
                    if complains {
                        return LinkEnd::Complaint;
                    }
                }
                Ok(None) => return LinkEnd::Whole,
                Err(refusal) => return LinkEnd::Refused(refusal),
            }
        }
    }

    /// Takes bytes that came at this time. Each reply that is whole is that of the first leg that has none. What isn't a
    /// reply, a reply that no leg awaits or that is no answer to its leg, one that says that the node doesn't know what it was
    /// asked, and want of memory break the link.
    #[inline(always)]
    pub(crate) fn take_bytes(
        &mut self,
        alloc: Global,
        front: &mut Front,
        spares: &mut SpareLists,
        now: u64,
        piece: &[u8],
    ) -> LinkEnd
        ensures { TakesBytes now piece.now self.old front.old result self.new front.new }
    {
        if !self.is_up {
            return LinkEnd::Down;
        }
        match self.reader.feed(piece) {
            Err(refusal) => {
                self.break_off(alloc, front, now);
                return LinkEnd::Refused(refusal);
            }
            Ok(()) => {}
        }
        match self.take_replies(alloc, front, spares, now) {
            LinkEnd::Whole => LinkEnd::Whole,
            end => {
                self.break_off(alloc, front, now);
                end
            }
        }
    }
}
