//! Where bytes are read from, and what contracts know of it.
ghost use Rattle.std.specs.Prelude.{◌≡◌, [], None};
ghost use Rattle.mr_text.specs.Source.{SourceView, IsOneRead};

use crate::devices::counting::{GhostBytes, GhostCount, GhostLeast};
use crate::error::ReadFault;
use std::io::Read;

/// A stream of bytes to read from, whose contract tells what it gave, how often it was read, with how much room, and how
/// often it failed.
pub trait Source {
    /// What was read of it so far.
    ghost told: { Self → SourceView };

    /// Reads some bytes into the front of the buffer and says how many. No byte, in a buffer that has room,
    /// is the end of the stream.
    fn read(&mut self, buffer: &mut [u8]) -> Result<usize, ReadFault>
        ensures { IsOneRead buffer.new (told self.old) result (told self.new) };
}

/// A reader of std as a `Source`. Each call is one call of the reader.
pub struct OverReader<R: Read> {
    inner: R,
    taken: GhostBytes,
    reads: GhostCount,
    failures: GhostCount,
    least_room: GhostLeast,
}

impl<R: Read + Drop> Drop for OverReader<R> {
    fn drop(self) {
        let Self {
            inner: _,
            taken: _,
            reads: _,
            failures: _,
            least_room: _,
        } = self;
    }
}

impl<R: Read> OverReader<R> {
    /// A source over a reader, of which nothing was taken yet.
    pub fn new(inner: R) -> OverReader<R>
        ensures { ⟦<OverReader<R> as Source>⟧.told result
            ≡ record { taken = []; left = R.remaining inner; reads = 0; failures = 0; least_room = None } }
    {
        OverReader {
            inner,
            taken: GhostBytes::new(),
            reads: GhostCount::new(),
            failures: GhostCount::new(),
            least_room: GhostLeast::new(),
        }
    }
}

impl<R: Read> Source for OverReader<R> {
    ghost told = { λ s. record { taken = s.taken; left = R.remaining s.inner; reads = s.reads; failures = s.failures; least_room = s.least_room } };

    fn read(&mut self, buffer: &mut [u8]) -> Result<usize, ReadFault> {
        self.reads.add_one();
        self.least_room.meet(buffer.len());
        match self.inner.read(buffer) {
            Ok(count) => {
                self.taken.extend(&buffer[..count]);
                Ok(count)
            }
            Err(_) => {
                self.failures.add_one();
                Err(ReadFault)
            }
        }
    }
}
