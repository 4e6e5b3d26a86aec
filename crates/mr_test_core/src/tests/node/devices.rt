//! Readers, writers and clocks that tests look at, and a service over them.
use mr_clock::{Clock, ClockFault};
use mr_node::{Ended, NodeError, Perform, serve};
use mr_test_support::TakesHalf;
use mr_text::{FailsAt, OverReader, OverWriter};
use std::alloc::Global;
use std::cell::Cell;
use std::io;
use std::io::Read;

/// A reader that gives no more than so many bytes at a time, each time a second later than the time before.
#[derive(Drop)]
pub(super) struct Pieces<'a> {
    pub(super) bytes: &'a [u8],
    pub(super) length: usize,
    pub(super) seconds: &'a Cell<u64>,
}

impl Read for Pieces<'_> {
    fn read(&mut self, buffer: &mut [u8]) -> io::Result<usize> {
        self.seconds.set(self.seconds.get().saturating_add(1));
        let count = self.bytes.len().min(self.length).min(buffer.len());
        let (given, left) = self.bytes.split_at(count);
        buffer[..count].copy_from_slice(given);
        self.bytes = left;
        Ok(count)
    }
}

/// A clock that shows these seconds.
#[derive(Drop)]
pub(super) struct Shown<'a>(pub(super) &'a Cell<u64>);

impl Clock for Shown<'_> {
    ghost failures = { λ _. 0 };

    ghost reads = { λ _ _ _. Unit {0} };

    fn now(&mut self) -> Result<u64, ClockFault> {
        Ok(self.0.get())
    }
}

/// Which of its calls fails of which device, if one does, and how many reads there may be of how many bytes.
#[derive(Clone, Copy)]
pub(super) struct Given {
    pub(super) read_fails: u64,
    pub(super) write_fails: u64,
    pub(super) half_at: usize,
    pub(super) length: usize,
    pub(super) turns: u64,
}

/// No device fails, and there are reads enough.
pub(super) const AMPLE: Given = Given {
    read_fails: 0,
    write_fails: 0,
    half_at: 0,
    length: 4096,
    turns: 10,
};

/// How a service ended, and the writer that it left.
#[derive(Drop)]
pub(super) struct Left {
    pub(super) how: Result<Ended, NodeError>,
    pub(super) writer: TakesHalf,
}

/// Serves this input over this device, by so many seconds.
pub(super) fn serve_input<P: Perform, C: Clock>(
    alloc: Global,
    node: &mut P,
    clock: &mut C,
    input: Pieces,
    given: Given,
    device: TakesHalf,
) -> Left {
    let mut reader = FailsAt::new(OverReader::new(input), given.read_fails);
    let mut writer = FailsAt::new(OverWriter::new(device), given.write_fails);
    let how = serve(alloc, node, &mut reader, &mut writer, clock, given.turns);
    Left {
        how,
        writer: writer.into_inner().into_inner(),
    }
}
