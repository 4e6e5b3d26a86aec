//! Texts that go out in few calls: small pieces are gathered in a buffer first. The same buffer takes in what a read brings.
ghost use Rattle.std.specs.Prelude.{◌≡◌, ◌+◌, ◌*◌, ◌<◌, ◌≤◌, ◌++◌, ◌↔◌, [], ◌∷◌, IsTrue, flat_map, if◌then◌else◌, length, OnOk, OnErr, MatchResult};
ghost use Rattle.mr_text.specs.Canonical.{line_end};
ghost use Rattle.mr_text.specs.Filling.{IsOneFilling};
ghost use Rattle.mr_text.specs.Gathering.{HasGathered, Gathers, Costs, IsFew, IsFewAtFault, owes};
ghost use Rattle.mr_text.specs.Sink.{HasWritten, HasStopped, Writes};

use crate::devices::{Sink, Source};
use crate::error::{ReadFault, WriteFault};
use crate::limits::FIXED_BUFFER;
use std::marker::Model;

/// What ends a line, and what stands behind a block.
pub(crate) const LINE_END: &[u8] = b"\r\n";

/// Room for 4,096 bytes, which holds some: the pieces of a text that haven't gone out yet, or what a read brought. Making
/// one clears it, so a connection makes it once and lends it for each of its reads and writes.
#[derive(Drop)]
pub struct FixedBuffer {
    room: [u8; FIXED_BUFFER],
    filled: usize,
}

impl Model for FixedBuffer {
    ghost use Rattle.std.specs.Prelude.{◌≤◌, ℕ, List, take};
    ghost use Rattle.mr_text.specs.Limits.{FIXED_BUFFER};

    ghost Value = { List ℕ };

    ghost view = { λ b. take b.filled b.room };

    ghost invariant = { λ b. b.filled ≤ FIXED_BUFFER };
}

impl FixedBuffer {
    /// An empty buffer.
    pub fn new() -> FixedBuffer
        ensures { result ≡ [] }
    {
        FixedBuffer {
            room: [0; FIXED_BUFFER],
            filled: 0,
        }
    }

    /// The bytes that it holds.
    #[inline(always)]
    pub fn as_slice(&self) -> &[u8]
        ensures { result.now ≡ self.now }
    {
        &self.room[..self.filled]
    }

    /// Forgets the bytes that it holds. They aren't cleared.
    #[inline(always)]
    pub fn clear(&mut self)
        ensures { self.new ≡ [] }
    {
        self.filled = 0;
    }

    /// Reads once, with room for 4,096 bytes, and holds then what came in place of what it held: nothing at the end of the
    /// stream and where the read failed.
    pub fn fill<S: Source>(&mut self, reader: &mut S) -> Result<(), ReadFault>
        ensures { IsOneFilling self.new (S.told reader.old) result (S.told reader.new) }
    {
        self.filled = 0;
        self.filled = reader.read(&mut self.room)?;
        Ok(())
    }

    /// Puts bytes behind those that it holds, if they fit. Whether they did.
    #[inline(always)]
    fn append(&mut self, bytes: &[u8]) -> bool
        ensures fits { IsTrue result ↔ (length self.old + length bytes.now ≤ FIXED_BUFFER) }
        ensures held { self.new ≡ (if result then self.old ++ bytes.now else self.old) }
    {
        if FIXED_BUFFER - self.filled < bytes.len() {
            return false;
        }
        let end = self.filled + bytes.len();
        self.room[self.filled..end].copy_from_slice(bytes);
        self.filled = end;
        true
    }

    /// Sends what is gathered, in one call, and makes no call where nothing is. It stays where the writer failed.
    #[inline(always)]
    pub fn send<W: Sink>(&mut self, writer: &mut W) -> Result<(), WriteFault>
        ensures text { Writes self.old (W.told writer.old) result (W.told writer.new) }
        ensures empty { OnOk result (self.new ≡ []) }
        ensures stays { OnErr result (self.new ≡ self.old) }
        ensures idle { self.old ≡ [] → (writer.new ≡ writer.old) }
        ensures calls { 0 < length self.old → (W.told writer.new).calls ≡ (W.told writer.old).calls + 1 }
    {
        if self.filled == 0 {
            return Ok(());
        }
        writer.write_all(self.as_slice())?;
        self.clear();
        Ok(())
    }

    /// Puts bytes behind what is gathered. Where they don't fit, that goes out first; and what is longer than the whole
    /// buffer goes out then by itself.
    #[inline(always)]
    pub(crate) fn put<W: Sink>(&mut self, bytes: &[u8], writer: &mut W) -> Result<(), WriteFault>
        ensures text { Gathers bytes.now self.old (W.told writer.old) result self.new (W.told writer.new) }
        ensures long { FIXED_BUFFER < length bytes.now → ((W.told writer.new).calls ≤
            (W.told writer.old).calls + 2) × OnOk result (self.new ≡ []) }
    {
        if self.append(bytes) {
            return Ok(());
        }
        self.make_way(bytes, writer)
    }

    /// Puts bytes behind what is gathered, behind which they don't fit.
    #[inline(never)]
    fn make_way<W: Sink>(&mut self, bytes: &[u8], writer: &mut W) -> Result<(), WriteFault>
        requires { FIXED_BUFFER < length self.old + length bytes.now }
        ensures text { Gathers bytes.now self.old (W.told writer.old) result self.new (W.told writer.new) }
        ensures long { FIXED_BUFFER < length bytes.now → ((W.told writer.new).calls ≤
            (W.told writer.old).calls + 2) × OnOk result (self.new ≡ []) }
    {
        self.send(writer)?;
        if self.append(bytes) {
            return Ok(());
        }
        writer.write_all(bytes)
    }

    /// Puts pieces, one behind the other.
    #[inline(always)]
    fn put_all<W: Sink>(&mut self, pieces: &[&[u8]], writer: &mut W) -> Result<(), WriteFault>
        ensures { Gathers (flat_map (λ piece. piece.now) pieces.now)
            self.old (W.told writer.old) result self.new (W.told writer.new) }
    {
        for piece in pieces {
            self.put(piece, writer)?;
        }
        Ok(())
    }

    /// Puts the pieces of a line, one behind the other.
    #[inline(always)]
    #[tactic(auto, using(crate::proofs::Gathered::line_costs))]
    pub(crate) fn put_line<W: Sink>(
        &mut self,
        pieces: &[&[u8]],
        writer: &mut W,
    ) -> Result<(), WriteFault>
        ensures text { Gathers (flat_map (λ piece. piece.now) pieces.now)
            self.old (W.told writer.old) result self.new (W.told writer.new) }
        ensures calls { length (flat_map (λ piece. piece.now) pieces.now) + 2 ≤ FIXED_BUFFER
            → (W.told writer.new).calls ≤ (W.told writer.old).calls + owes self.old }
    {
        self.put_all(pieces, writer)
    }

    /// Puts bytes that may be long, and a line end behind them.
    #[inline(always)]
    pub(crate) fn put_block<W: Sink>(
        &mut self,
        block: &[u8],
        writer: &mut W,
    ) -> Result<(), WriteFault>
        ensures text { Gathers (block.now ++ line_end)
            self.old (W.told writer.old) result self.new (W.told writer.new) }
        ensures calls { Costs 2 [] (W.told writer.old) result self.new (W.told writer.new) }
    {
        self.put(block, writer)?;
        self.put(LINE_END, writer)
    }
}
