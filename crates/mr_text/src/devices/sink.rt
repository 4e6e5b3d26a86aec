//! Where bytes are written to, and what contracts know of it.
ghost use Rattle.std.specs.Prelude.{◌≡◌, [], false};
ghost use Rattle.mr_text.specs.Sink.{SinkView, IsOneWrite};

use crate::devices::counting::{GhostBytes, GhostCount};
use crate::error::WriteFault;
use std::io::Write;

/// A place to write bytes to, whose contract tells what was written, what it was handed, how often it was called and how
/// often it failed.
pub trait Sink {
    /// What was written to it so far.
    ghost told: { Self → SinkView };

    /// Writes all the bytes. How many of them went out before a fault isn't known.
    fn write_all(&mut self, bytes: &[u8]) -> Result<(), WriteFault>
        ensures { IsOneWrite bytes.now (told self.old) result (told self.new) };
}

/// A writer of std as a `Sink`. Each call is one call of the writer.
pub struct OverWriter<W: Write> {
    inner: W,
    written: GhostBytes,
    handed: GhostBytes,
    calls: GhostCount,
    failures: GhostCount,
    last_failed: bool,
}

impl<W: Write + Drop> Drop for OverWriter<W> {
    fn drop(self) {
        let Self {
            inner: _,
            written: _,
            handed: _,
            calls: _,
            failures: _,
            last_failed: _,
        } = self;
    }
}

impl<W: Write> OverWriter<W> {
    /// A sink over a writer, to which nothing was written yet.
    pub fn new(inner: W) -> OverWriter<W>
        ensures { ⟦<OverWriter<W> as Sink>⟧.told result
            ≡ record { written = []; handed = []; calls = 0; failures = 0; last_failed = false; contents = W.contents inner } }
    {
        OverWriter {
            inner,
            written: GhostBytes::new(),
            handed: GhostBytes::new(),
            calls: GhostCount::new(),
            failures: GhostCount::new(),
            last_failed: false,
        }
    }

    /// The writer, with what it holds.
    pub fn into_inner(self) -> W
        ensures { W.contents result ≡ (⟦<OverWriter<W> as Sink>⟧.told self).contents }
    {
        let OverWriter {
            inner,
            written: _,
            handed: _,
            calls: _,
            failures: _,
            last_failed: _,
        } = self;
        inner
    }
}

impl<W: Write> Sink for OverWriter<W> {
    ghost told = { λ s. record { written = s.written; handed = s.handed; calls = s.calls; failures = s.failures; last_failed = s.last_failed; contents = W.contents s.inner } };

    fn write_all(&mut self, bytes: &[u8]) -> Result<(), WriteFault> {
        self.calls.add_one();
        self.handed.extend(bytes);
        match self.inner.write_all(bytes) {
            Ok(()) => {
                self.written.extend(bytes);
                self.last_failed = false;
                Ok(())
            }
            Err(_) => {
                self.failures.add_one();
                self.last_failed = true;
                Err(WriteFault)
            }
        }
    }
}
