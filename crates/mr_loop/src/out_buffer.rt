//! Bytes that wait until they can be written.
ghost use Rattle.std.specs.Prelude.{◌≡◌, ◌≤◌, [], ◌++◌, length, drop, take, OnOk, OnErr};
ghost use Rattle.mr_text.specs.Canonical.{canonical_reply};
ghost use Rattle.mr_proxy.specs.Answer.{reply_of};
ghost use Rattle.mr_loop.specs.Links.{text_of};

use crate::out_sink::OutSink;
use crate::sent_legs::SentLeg;
use mr_proxy::{Answer, write_legs};
use mr_text::{FixedBuffer, Reply, send_reply};
use std::alloc::{AllocError, Global};
use std::marker::Model;

/// Memory of so many bytes is kept for a client where nothing waits.
const KEPT: usize = 1024;

/// Memory of so many bytes is kept for a link where nothing waits, of which there are few: what a turn of many clients asks.
const KEPT_FOR_LINK: usize = 65_536;

/// What was written is dropped from the memory where it is more than an answer of the largest value, and no less than what waits: so
/// one answer isn't moved while it goes out.
const DROPPED: usize = 1_114_112;

/// Bytes that wait until they can be written, in order.
#[derive(Drop)]
pub struct OutBuffer {
    sink: OutSink,
    start: usize,
    kept: usize,
}

impl Model for OutBuffer {
    ghost use Rattle.std.specs.Prelude.{ℕ, List, ◌≤◌, length, drop};

    ghost Value = { List ℕ };

    ghost view = { λ b. drop b.start b.sink.bytes.items };

    ghost invariant = { λ b. b.start ≤ length b.sink.bytes.items };
}

impl OutBuffer {
    /// Nothing waits.
    pub fn new(alloc: Global) -> OutBuffer
        ensures { result ≡ [] }
    {
        OutBuffer {
            sink: OutSink::new(alloc),
            start: 0,
            kept: KEPT,
        }
    }

    /// Nothing waits for a node.
    pub(crate) fn of_link(alloc: Global) -> OutBuffer
        ensures { result ≡ [] }
    {
        OutBuffer {
            sink: OutSink::new(alloc),
            start: 0,
            kept: KEPT_FOR_LINK,
        }
    }

    /// What waits.
    #[inline(always)]
    pub fn as_slice(&self) -> &[u8]
        ensures { result.now ≡ self.now }
    {
        &self.sink.bytes[self.start..]
    }

    /// How many bytes wait.
    #[inline(always)]
    pub fn len(&self) -> usize
        ensures { result ≡ length self.now }
    {
        self.sink.bytes.len() - self.start
    }

    /// So many bytes were written.
    #[inline(always)]
    pub(crate) fn advance(&mut self, count: usize)
        requires { count ≤ length self.old }
        ensures { self.new ≡ drop count self.old }
    {
        self.start += count;
        if self.start == self.sink.bytes.len() {
            self.clear();
        } else if self.start >= DROPPED && self.start >= self.sink.bytes.len() - self.start {
            self.drop_written();
        }
    }

    /// What was written is dropped from the memory, unless there is none to copy the rest to.
    fn drop_written(&mut self)
        ensures { self.new ≡ self.old }
    {
        let alloc = *self.sink.bytes.allocator();
        if let Ok(rest) = Vec::from_slice(alloc, &self.sink.bytes[self.start..]) {
            self.sink.bytes = rest;
            self.start = 0;
        }
    }

    /// Nothing waits any more.
    #[inline(always)]
    pub(crate) fn clear(&mut self)
        ensures { self.new ≡ [] }
    {
        if self.sink.bytes.capacity() > self.kept {
            let alloc = *self.sink.bytes.allocator();
            self.sink.bytes = Vec::new(alloc);
        } else {
            self.sink.bytes.clear();
        }
        self.start = 0;
    }

    /// Only so many bytes wait any more, the first ones.
    pub(crate) fn cut(&mut self, count: usize)
        ensures { self.new ≡ take count self.old }
    {
        if count < self.len() {
            self.sink.bytes.truncate(self.start + count);
        }
    }

    /// Puts the request for a leg and for those that travel with it behind what waits. For want of memory nothing changes.
    #[inline(always)]
    pub(crate) fn put_legs(
        &mut self,
        sent: &SentLeg,
        buffer: &mut FixedBuffer,
    ) -> Result<(), AllocError>
        ensures put { OnOk result (self.new ≡ self.old ++ text_of sent.now) }
        ensures unchanged { OnErr result (self.new ≡ self.old) }
    {
        let before = self.sink.bytes.len();
        let command = &sent.leg.sheet().command;
        if write_legs(command, sent.others.as_slice(), buffer, &mut self.sink).is_err() {
            self.sink.bytes.truncate(before);
            return Err(AllocError);
        }
        Ok(())
    }

    /// Puts the text of an answer behind what waits. For want of memory nothing changes.
    #[inline(always)]
    pub(crate) fn put_answer(
        &mut self,
        answer: &Answer,
        buffer: &mut FixedBuffer,
    ) -> Result<(), AllocError>
        ensures put { OnOk result (self.new ≡ self.old ++ canonical_reply (reply_of answer.now)) }
        ensures unchanged { OnErr result (self.new ≡ self.old) }
    {
        let before = self.sink.bytes.len();
        if answer.send(buffer, &mut self.sink).is_err() {
            self.sink.bytes.truncate(before);
            return Err(AllocError);
        }
        Ok(())
    }

    /// Puts the text of a reply behind what waits. For want of memory nothing changes.
    #[inline(always)]
    pub(crate) fn put_reply(
        &mut self,
        reply: &Reply,
        buffer: &mut FixedBuffer,
    ) -> Result<(), AllocError>
        ensures put { OnOk result (self.new ≡ self.old ++ canonical_reply reply.now) }
        ensures unchanged { OnErr result (self.new ≡ self.old) }
    {
        let before = self.sink.bytes.len();
        if send_reply(reply, buffer, &mut self.sink).is_err() {
            self.sink.bytes.truncate(before);
            return Err(AllocError);
        }
        Ok(())
    }
}
