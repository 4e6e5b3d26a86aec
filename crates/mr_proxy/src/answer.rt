//! The answer to a request.
ghost use Rattle.std.specs.Prelude.{◌≡◌, ◌↔◌, IsTrue, IfOk};
ghost use Rattle.mr_text.specs.Canonical.{canonical_reply};
ghost use Rattle.mr_text.specs.Gathering.{TakesFewCalls, parts_of_reply};
ghost use Rattle.mr_text.specs.Sink.{Writes};

use crate::join::join_replies;
use crate::pending::Pending;
use crate::slot::Slot;
use crate::writing::write_joined;
use mr_history::OpId;
use mr_text::{FixedBuffer, Item, Reply, Request, Sink, WriteFault};
use std::alloc::AllocError;
use std::marker::Model;

/// The answer to a request: its legs with what came back. Only a proxy makes one.
#[derive(Debug, Drop)]
pub struct Answer {
    pending: Pending,
    given_up: bool,
}

impl Model for Answer {
    ghost use Rattle.mr_proxy.specs.Answer.{AnswerView, answer_of};

    ghost Value = { AnswerView };

    ghost view = { λ a. answer_of a.pending a.given_up };

    ghost use Rattle.mr_proxy.specs.Whole.{IsWholeAnswer};

    ghost invariant = { λ a. IsWholeAnswer (answer_of a.pending a.given_up) };
}

impl Answer {
    ghost use Rattle.mr_proxy.specs.Answer.{answer_of, reply_of};
    ghost use Rattle.mr_proxy.specs.Whole.{IsWholeAnswer};

    /// The answer to a request as it stands.
    #[inline(always)]
    pub(crate) fn of(pending: Pending, given_up: bool) -> Answer
        requires { IsWholeAnswer (answer_of pending given_up) }
        ensures { result ≡ answer_of pending given_up }
    {
        Answer { pending, given_up }
    }

    /// The request's name.
    #[inline(always)]
    pub fn op(&self) -> OpId
        ensures { result ≡ self.now.op }
    {
        self.pending.op()
    }

    /// The request.
    #[inline(always)]
    pub fn request(&self) -> &Request
        ensures { result.now ≡ self.now.request }
    {
        self.pending.request()
    }

    /// The reading by which the request was judged, in seconds since the epoch.
    #[inline(always)]
    pub fn reading(&self) -> u64
        ensures { result ≡ self.now.reading }
    {
        self.pending.reading()
    }

    /// The legs in order of place, each with its reply. A leg without one counts as lost. An answer has a leg, its
    /// legs are those of its request, each reply is of its leg's kind, and it was given up where a leg is silent.
    #[inline(always)]
    pub fn slots(&self) -> &[Slot]
        ensures slots { result.now ≡ self.now.slots }
        ensures whole { IsWholeAnswer self.now }
    {
        self.pending.slots()
    }

    /// Whether the request was given up before all its legs had answered.
    pub fn given_up(&self) -> bool
        ensures { result ≡ self.now.given_up }
    {
        self.given_up
    }

    /// Writes what the client is told, in its canonical text. It takes memory only as the writer does. At a fault a
    /// beginning of the text is written, and the call that failed is the last. A text of up to 4,096 bytes goes out
    /// in one call.
    pub fn write<W: Sink>(&self, writer: &mut W) -> Result<(), WriteFault>
        ensures text { Writes (canonical_reply (reply_of self.now)) (W.told writer.old) result (W.told writer.new) }
        ensures calls { TakesFewCalls (canonical_reply (reply_of self.now))
            (parts_of_reply (reply_of self.now)) (W.told writer.old) (W.told writer.new) }
    {
        self.send(&mut FixedBuffer::new(), writer)
    }

    /// Writes what the client is told, as `write` does, through a buffer that is lent to it. What stands in that before is
    /// forgotten.
    #[inline(always)]
    pub fn send<W: Sink>(&self, buffer: &mut FixedBuffer, writer: &mut W) -> Result<(), WriteFault>
        ensures text { Writes (canonical_reply (reply_of self.now)) (W.told writer.old) result (W.told writer.new) }
        ensures calls { TakesFewCalls (canonical_reply (reply_of self.now))
            (parts_of_reply (reply_of self.now)) (W.told writer.old) (W.told writer.new) }
    {
        write_joined(self.pending.request(), self.pending.slots(), buffer, writer)
    }

    /// What the client is told. It takes no memory: the room was made at the issue.
    pub fn into_reply(self) -> Reply
        ensures { result ≡ reply_of self }
    {
        let (request, slots, items) = self.pending.into_parts();
        join_replies(request, slots, items)
    }

    /// The lists of an answer that isn't needed any more.
    pub(crate) fn into_lists(self) -> (Vec<Slot>, Vec<Item>) {
        let (request, slots, items) = self.pending.into_parts();
        drop(request);
        (slots, items)
    }

    /// Whether the other answer is equal. It takes no memory.
    pub fn same_as(&self, other: &Answer) -> bool
        ensures { IsTrue result ↔ (self.now ≡ other.now) }
    {
        self.given_up == other.given_up && self.pending.same_as(&other.pending)
    }

    /// An equal answer.
    pub fn copy(&self) -> Result<Answer, AllocError>
        ensures { IfOk result (λ answer. answer ≡ self.now) }
    {
        Ok(Answer {
            pending: self.pending.copy()?,
            given_up: self.given_up,
        })
    }
}
