//! Memory that is written to as to a device.
ghost use Rattle.std.specs.Prelude.{◌≡◌, ◌≤◌, ◌++◌, [], false, None, length, take, drop, OnOk, OnErr};

use mr_text::{GhostBytes, GhostCount, Sink, WriteFault};
use std::alloc::{AllocError, Global};

/// Memory that is taken for so many bytes or more has room for the end of a text behind them.
const LARGE: usize = 4_096;

/// The room for the end of a text.
const END: usize = 64;

/// Bytes that are gathered in memory. A write fails where memory for it is refused, and then nothing is added.
#[derive(Drop)]
pub(crate) struct OutSink {
    pub(crate) bytes: Vec<u8>,
    handed: GhostBytes,
    calls: GhostCount,
    failures: GhostCount,
    last_failed: bool,
}

impl OutSink {
    /// No bytes.
    pub(crate) fn new(alloc: Global) -> OutSink
        ensures { result.bytes.items ≡ [] }
    {
        OutSink {
            bytes: Vec::new(alloc),
            handed: GhostBytes::new(),
            calls: GhostCount::new(),
            failures: GhostCount::new(),
            last_failed: false,
        }
    }
}

impl Sink for OutSink {
    ghost told = { λ s. record { written = s.bytes.items; handed = s.handed; calls = s.calls; failures = s.failures; last_failed = s.last_failed; contents = None } };

    #[inline(always)]
    fn write_all(&mut self, bytes: &[u8]) -> Result<(), WriteFault> {
        self.calls.add_one();
        self.handed.extend(bytes);
        match add_to(&mut self.bytes, bytes) {
            Ok(()) => {
                self.last_failed = false;
                Ok(())
            }
            Err(_) => {
                self.failures.add_one();
                self.last_failed = true;
                Err(WriteFault)
            }
        }
    }
}

/// Adds bytes behind those that are there. For want of memory nothing changes.
#[inline(always)]
fn add_to(there: &mut Vec<u8>, bytes: &[u8]) -> Result<(), AllocError>
    ensures added { OnOk result (there.new.items ≡ there.old.items ++ bytes.now) }
    ensures unchanged { OnErr result (there.new.items ≡ there.old.items) }
{
    if bytes.len() >= LARGE {
        there.reserve(bytes.len().saturating_add(END))?;
    }
    there.extend_from_slice(bytes)
}
