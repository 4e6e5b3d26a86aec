//! A writer of std that fails in the middle of a piece.
use std::alloc::Global;
use std::io;
use std::io::Write;

/// A writer of std that takes half of one piece and fails then, at each later call too; with 0 it never fails. It keeps
/// what it took.
#[derive(Drop)]
pub struct TakesHalf {
    /// What it took.
    pub kept: Vec<u8>,
    /// How often it was called.
    pub calls: usize,
    /// Which call takes half of its piece; those behind it fail.
    pub fails_at: usize,
}

impl TakesHalf {
    /// A writer that wasn't called, and that takes half of the piece of this call.
    pub fn new(alloc: Global, fails_at: usize) -> TakesHalf {
        TakesHalf {
            kept: Vec::new(alloc),
            calls: 0,
            fails_at,
        }
    }

    /// Whether it has what is to be left of a text that was written in so many calls, by what was told of it: all of it, if
    /// none of them was to fail; else a beginning, and no call came behind the one that failed.
    pub fn has_left(&self, has_failed: bool, text: &[u8], calls: usize) -> bool {
        let fails = self.fails_at <= calls;
        let made = if fails {
            self.fails_at.saturating_add(1)
        } else {
            calls
        };
        let is_cut = self.kept.len() < text.len();
        has_failed == fails && self.calls == made && is_cut == fails && text.starts_with(&self.kept)
    }
}

impl Write for TakesHalf {
    fn write(&mut self, bytes: &[u8]) -> io::Result<usize> {
        self.calls = self.calls.saturating_add(1);
        if self.fails_at > 0 && self.calls > self.fails_at {
            return Err(io::ErrorKind::BrokenPipe.into());
        }
        let taken = if self.calls == self.fails_at {
            bytes.len() / 2
        } else {
            bytes.len()
        };
        match self.kept.extend_from_slice(&bytes[..taken]) {
            Ok(()) => Ok(taken),
            Err(_) => Err(io::ErrorKind::OutOfMemory.into()),
        }
    }

    fn flush(&mut self) -> io::Result<()> {
        self.calls = self.calls.saturating_add(1);
        Ok(())
    }
}
