//! What goes through to a device, and a device that fails.
use super::{are, count_is, equal_bytes, holds, is};
use mr_text::{FailsAt, OverReader, OverWriter, ReadFault, Sink, Source};
use std::alloc::Global;
use std::io;
use std::io::{Read, Write};
use std::process::Abort;

/// Asserts what a read comes to, through the bound.
fn reads<S: Source>(
    rt: &impl Abort,
    row: usize,
    source: &mut S,
    buffer: &mut [u8],
    wanted: Result<usize, ReadFault>,
) {
    is(rt, row, source.read(buffer), wanted);
}

/// Asserts whether a write fails, through the bound.
fn fails<S: Sink>(rt: &impl Abort, row: usize, sink: &mut S, bytes: &[u8], wanted: bool) {
    holds(rt, row, sink.write_all(bytes).is_err(), wanted);
}

/// What a failing read comes to.
const FAULT: Result<usize, ReadFault> = Err(ReadFault);

/// What four reads of two bytes, out of five, come to where the one of this number is to fail.
static READS: [[Result<usize, ReadFault>; 4]; 6] = [
    [Ok(2), Ok(2), Ok(1), Ok(0)],
    [FAULT, Ok(2), Ok(2), Ok(1)],
    [Ok(2), FAULT, Ok(2), Ok(1)],
    [Ok(2), Ok(2), FAULT, Ok(1)],
    [Ok(2), Ok(2), Ok(1), FAULT],
    [Ok(2), Ok(2), Ok(1), Ok(0)],
];

/// Asserts what four reads come to.
fn read_in_turn<S: Source>(
    rt: &impl Abort,
    row: usize,
    source: &mut S,
    wanted: &[Result<usize, ReadFault>],
) {
    for it in wanted {
        reads(rt, row, source, &mut [0; 2], *it);
    }
}

#[test]
fn one_read_fails(rt: HostRuntime) {
    for (row, it) in READS.iter().enumerate() {
        let mut source = FailsAt::new(OverReader::new(b"abcde".as_slice()), row as u64);
        read_in_turn(&rt, row, &mut source, it);
    }
}

#[test]
fn a_read_leaves_what_stands_behind_it(rt: HostRuntime) {
    let mut buffer = [b'x'; 4];
    reads(
        &rt,
        0,
        &mut OverReader::new(b"abc".as_slice()),
        &mut buffer,
        Ok(3),
    );
    are(&rt, 1, &buffer, b"abcx");
}

/// What is held of the bytes `abcd` where the write of this number is to fail.
static WRITES: [&[u8]; 6] = [b"abcd", b"bcd", b"acd", b"abd", b"abc", b"abcd"];

/// Asserts that of four writes of a byte the one of the row's number fails alone.
fn write_in_turn<S: Sink>(rt: &impl Abort, row: usize, sink: &mut S) {
    for (place, byte) in b"abcd".iter().enumerate() {
        fails(rt, row, sink, &[*byte], place.saturating_add(1) == row);
    }
}

#[test]
fn one_write_fails(rt: HostRuntime) {
    for (row, held) in WRITES.iter().enumerate() {
        let mut sink = FailsAt::new(OverWriter::new(Vec::new(rt.alloc())), row as u64);
        write_in_turn(&rt, row, &mut sink);
        are(&rt, row, &sink.into_inner().into_inner(), held);
    }
}

/// A device of std that counts its calls, and keeps with how long a buffer it was called at last. One of its calls fails.
#[derive(Clone, Copy)]
struct Told {
    fails_at: usize,
    /// How many bytes each read gives, or fewer in a shorter buffer.
    gives: usize,
    calls: usize,
    length: usize,
}

impl Told {
    fn call(&mut self, length: usize) -> io::Result<()> {
        self.calls = self.calls.saturating_add(1);
        self.length = length;
        if self.calls == self.fails_at {
            return Err(io::ErrorKind::BrokenPipe.into());
        }
        Ok(())
    }
}

impl Read for Told {
    fn read(&mut self, buffer: &mut [u8]) -> io::Result<usize> {
        self.call(buffer.len())?;
        Ok(self.gives.min(buffer.len()))
    }
}

impl Write for Told {
    fn write(&mut self, bytes: &[u8]) -> io::Result<usize> {
        self.call(bytes.len())?;
        Ok(bytes.len())
    }

    fn flush(&mut self) -> io::Result<()> {
        self.call(0)
    }
}

/// Devices that weren't called: one that gives all that there is room for, one that gives a byte, one at the end, and one
/// that fails.
static DEVICES: [Told; 4] = [
    Told {
        fails_at: 0,
        gives: usize::MAX,
        calls: 0,
        length: 0,
    },
    Told {
        fails_at: 0,
        gives: 1,
        calls: 0,
        length: 0,
    },
    Told {
        fails_at: 0,
        gives: 0,
        calls: 0,
        length: 0,
    },
    Told {
        fails_at: 1,
        gives: 1,
        calls: 0,
        length: 0,
    },
];

/// Asserts how often a device was called, and with how long a buffer at last.
fn was_called(rt: &impl Abort, row: usize, device: &Told, calls: usize, length: usize) {
    count_is(rt, row, device.calls, calls);
    count_is(rt, row, device.length, length);
}

/// Asserts that a read with this buffer is one call of the device with the whole of it.
fn is_one_read(rt: &impl Abort, row: usize, mut device: Told, buffer: &mut [u8]) {
    let wanted = if device.fails_at == 1 {
        FAULT
    } else {
        Ok(device.gives.min(buffer.len()))
    };
    reads(rt, row, &mut OverReader::new(&mut device), buffer, wanted);
    was_called(rt, row, &device, 1, buffer.len());
}

/// Asserts that a write of these bytes is one call of the device with all of them.
fn is_one_write(rt: &impl Abort, row: usize, mut device: Told, bytes: &[u8]) {
    let wanted = device.fails_at == 1;
    fails(rt, row, &mut OverWriter::new(&mut device), bytes, wanted);
    was_called(rt, row, &device, 1, bytes.len());
}

/// Asserts that each read with this buffer and each write of it goes through to the device, in one call.
fn goes_through(rt: &impl Abort, buffer: &mut [u8]) {
    for (row, device) in DEVICES.iter().enumerate() {
        is_one_read(rt, row, *device, buffer);
        is_one_write(rt, row, *device, buffer);
    }
}

#[test]
fn one_read_or_write_is_one_call_of_the_device(rt: HostRuntime) {
    for length in [1, 4, 4096, 65_536] {
        goes_through(&rt, &mut equal_bytes(&rt, rt.alloc(), b'x', length));
    }
}

/// Asserts that a read fails, and that the next one gives a byte.
fn fails_once<S: Source>(rt: &impl Abort, source: &mut S) {
    reads(rt, 0, source, &mut [0; 4], FAULT);
    reads(rt, 1, source, &mut [0; 4], Ok(1));
}

#[test]
fn device_that_failed_is_called_again_only_when_asked(rt: HostRuntime) {
    let mut device = DEVICES[3];
    fails_once(&rt, &mut OverReader::new(&mut device));
    was_called(&rt, 2, &device, 2, 4);
}
