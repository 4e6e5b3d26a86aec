//! A carrier that reaches its node by a stream.
ghost use Rattle.std.specs.Prelude.{◌≡◌, ◌+◌, true, is_some, Some, None, IfOk, MatchResult};
ghost use Rattle.mr_sessions.specs.Link.{HasCarried, IsNotCarried, LinkCarries, new_link};
ghost use Rattle.mr_desks.specs.Local.{IsReplyOfKind};

use crate::exchange::exchange;
use mr_desks::{Carrier, WorkerError};
use mr_join::LegReply;
use mr_proxy::LegSheet;
use mr_text::{FixedBuffer, GhostCount, ReplyReader, Sink, Source};
use std::alloc::Global;
use std::marker::Model;

/// A link to one node, which carries one leg at a time: it writes the leg's request, and reads the reply that stands next.
/// After its first fault it is broken for good, and no more is written or read. At its first leg it makes the one buffer that
/// serves for all its writes and reads, and it keeps that until a fault breaks it.
pub struct NodeLink<S: Source, W: Sink> {
    reader: S,
    writer: W,
    alloc: Global,
    buffer: Option<Box<FixedBuffer>>,
    replies: ReplyReader,
    turns: u64,
    broken: bool,
    faults: GhostCount,
}

impl<S: Source + Drop, W: Sink + Drop> Drop for NodeLink<S, W> {
    fn drop(self) {
        let Self {
            reader: _,
            writer: _,
            alloc: _,
            buffer: _,
            replies: _,
            turns: _,
            broken: _,
            faults: _,
        } = self;
    }
}

impl<S: Source, W: Sink> Model for NodeLink<S, W> {
    ghost use Rattle.std.specs.Prelude.{◌≡◌, false, is_some};
    ghost use Rattle.mr_sessions.specs.Exchange.{wire};
    ghost use Rattle.mr_sessions.specs.Link.{LinkView};
    ghost use Rattle.mr_sessions.specs.steps.Reading.{IsOpen};

    ghost Value = { LinkView };

    ghost view = { λ l. record {
      wire = wire (S.told l.reader) (W.told l.writer) l.replies.kept;
      turns = l.turns;
      has_buffer = is_some l.buffer;
      broken = l.broken;
      faults = l.faults;
    } };

    ghost invariant = { λ l. l.broken ≡ false → IsOpen l.replies };
}

/// The buffer that is kept, taken out; a new one where there is none. None where memory for that is refused.
fn take_or_make(alloc: Global, kept: &mut Option<Box<FixedBuffer>>) -> Option<Box<FixedBuffer>>
    ensures taken { kept.new ≡ None }
    ensures kept { is_some kept.old ≡ true → is_some result ≡ true }
{
    match kept.take() {
        Some(buffer) => Some(buffer),
        None => Box::new(alloc, FixedBuffer::new()).ok(),
    }
}

impl<S: Source, W: Sink> NodeLink<S, W> {
    /// A link by this reader and this writer, which carried nothing yet and makes at most `turns` reads for a leg. It takes
    /// no memory.
    pub fn new(alloc: Global, reader: S, writer: W, turns: u64) -> NodeLink<S, W>
        ensures { result ≡ new_link (S.told reader) (W.told writer) turns }
    {
        NodeLink {
            reader,
            writer,
            alloc,
            buffer: None,
            replies: ReplyReader::new(alloc),
            turns,
            broken: false,
            faults: GhostCount::new(),
        }
    }

    /// Whether a fault broke the link.
    pub fn is_broken(&self) -> bool
        ensures { result ≡ self.now.broken }
    {
        self.broken
    }

    /// The reader and the writer, given back. What was read and belongs to no reply is lost.
    pub fn into_parts(self) -> (S, W)
        ensures reader { S.told result.0 ≡ self.wire.reader }
        ensures writer { W.told result.1 ≡ self.wire.writer }
    {
        let NodeLink {
            reader,
            writer,
            alloc: _,
            buffer: _,
            replies: _,
            turns: _,
            broken: _,
            faults: _,
        } = self;
        (reader, writer)
    }
}

impl<S: Source, W: Sink> Carrier for NodeLink<S, W> {
    ghost gave = { IsReplyOfKind };

    ghost faults = { λ l. l.faults };

    ghost carries = { LinkCarries };

    ghost loses = { λ _. tt };

    /// Carries a leg, and gives the node's reply.
    ///
    /// WriteFault and ReadFault where that device failed. LinkBroken where the input ended before the reply or in it, and at
    /// each call after a fault, which touches neither device. Mismatch where what came is no reply, or no answer to the leg's
    /// command. TurnsSpent where one more read than `turns` would be needed. OutOfMemory where memory for the reply was
    /// refused, or, at the first leg, for the buffer, and then nothing is written or read.
    fn carry(&mut self, sheet: &LegSheet) -> Result<LegReply, WorkerError>
        ensures gave { IfOk result (λ reply. IsReplyOfKind sheet.now reply) }
        ensures carries { MatchResult result
            (λ reply. LinkCarries self.old sheet.now (Some reply) self.new)
            (λ _. LinkCarries self.old sheet.now None self.new) }
        ensures faults { MatchResult result
            (λ _. self.new.faults ≡ self.old.faults)
            (λ _. self.new.faults ≡ self.old.faults + 1) }
        ensures carried { MatchResult result
            (λ reply. HasCarried sheet.now.command self.old reply self.new)
            (λ fault. IsNotCarried sheet.now.command self.old fault self.new) }
    {
        if self.broken {
            self.faults.add_one();
            return Err(WorkerError::LinkBroken);
        }
        let Some(mut buffer) = take_or_make(self.alloc, &mut self.buffer) else {
            self.broken = true;
            self.faults.add_one();
            return Err(WorkerError::OutOfMemory);
        };
        match exchange(
            &mut self.reader,
            &mut self.writer,
            &mut self.replies,
            &mut buffer,
            self.turns,
            &sheet.command,
        ) {
            Ok(reply) => {
                self.buffer = Some(buffer);
                Ok(reply)
            }
            Err(fault) => {
                self.broken = true;
                self.faults.add_one();
                Err(fault)
            }
        }
    }
}
