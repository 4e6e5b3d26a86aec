//! What sessions and links read from and write to.
use mr_test_support::TakesHalf;
use mr_text::{FailsAt, OverReader, OverWriter};
use std::cell::Cell;
use std::io;
use std::io::Read;

/// What a reader did: how often it was called, and how many bytes it has left.
#[derive(Drop)]
pub(super) struct Reads {
    pub(super) calls: Cell<u64>,
    pub(super) left: Cell<usize>,
}

impl Reads {
    /// A reader of so many bytes that wasn't called.
    pub(super) fn of(count: usize) -> Reads {
        Reads {
            calls: Cell::new(0),
            left: Cell::new(count),
        }
    }
}

/// A reader that gives no more than so many bytes at a time, and shows what it did.
#[derive(Drop)]
pub(super) struct Pieces<'a> {
    bytes: &'a [u8],
    length: usize,
    reads: &'a Reads,
}

impl Read for Pieces<'_> {
    fn read(&mut self, buffer: &mut [u8]) -> io::Result<usize> {
        let count = self.bytes.len().min(self.length).min(buffer.len());
        let (given, left) = self.bytes.split_at(count);
        buffer[..count].copy_from_slice(given);
        self.bytes = left;
        self.reads.left.set(left.len());
        self.reads
            .calls
            .set(self.reads.calls.get().saturating_add(1));
        Ok(count)
    }
}

/// Which call of which device fails, if one does, and how many reads there may be, of how many bytes each.
#[derive(Clone, Copy)]
pub(super) struct Given {
    pub(super) read_fails: u64,
    pub(super) write_fails: u64,
    pub(super) half_at: usize,
    pub(super) length: usize,
    pub(super) turns: u64,
}

/// A reader of these bytes that is given so.
pub(super) fn reader<'a>(
    bytes: &'a [u8],
    reads: &'a Reads,
    given: Given,
) -> FailsAt<OverReader<Pieces<'a>>> {
    let pieces = Pieces {
        bytes,
        length: given.length,
        reads,
    };
    FailsAt::new(OverReader::new(pieces), given.read_fails)
}

/// A writer that is given so, which puts what is written behind what is kept.
pub(super) fn writer(kept: Vec<u8>, given: Given) -> FailsAt<OverWriter<TakesHalf>> {
    let takes_half = TakesHalf {
        kept,
        calls: 0,
        fails_at: given.half_at,
    };
    FailsAt::new(OverWriter::new(takes_half), given.write_fails)
}
