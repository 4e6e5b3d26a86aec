//! A device that fails when it is told to, for tests.
ghost use Rattle.std.specs.Prelude.{◌≡◌, ◌-◌, ◌==◌, IsErr};
ghost use Rattle.mr_text.specs.FailsAt.{TakesTurn, sink_told, source_told};
ghost use Rattle.mr_text.specs.Sink.{IsOneWrite};
ghost use Rattle.mr_text.specs.Source.{IsOneRead};

use crate::devices::counting::{GhostBytes, GhostCount, GhostLeast};
use crate::devices::{Sink, Source};
use crate::error::{ReadFault, WriteFault};

/// A device that fails in one of its calls, for tests of what a failure leaves.
#[derive(Drop)]
pub struct FailsAt<D> {
    inner: D,
    until: u64,
    handed: GhostBytes,
    least_room: GhostLeast,
    calls: GhostCount,
    failures: GhostCount,
    last_failed: bool,
}

impl<D> FailsAt<D> {
    ghost use Rattle.mr_text.specs.FailsAt.{calls_until_failure, device_of, IsUnused, IsSameBut};

    /// The device, with its `call`-th call of `read` or `write_all`, counted from 1, made to fail. Every other
    /// call goes to the device. With 0 none is made to fail.
    pub fn new(inner: D, call: u64) -> FailsAt<D>
        ensures device { device_of result ≡ inner }
        ensures until { calls_until_failure result ≡ call }
        ensures unused { IsUnused result }
    {
        FailsAt {
            inner,
            until: call,
            handed: GhostBytes::new(),
            least_room: GhostLeast::new(),
            calls: GhostCount::new(),
            failures: GhostCount::new(),
            last_failed: false,
        }
    }

    /// The device itself.
    pub fn into_inner(self) -> D
        ensures { result ≡ device_of self }
    {
        let FailsAt {
            inner,
            until: _,
            handed: _,
            least_room: _,
            calls: _,
            failures: _,
            last_failed: _,
        } = self;
        inner
    }

    /// Whether this call is the one that fails.
    fn takes_failing_turn(&mut self) -> bool
        ensures same { IsSameBut (calls_until_failure self.old - 1) self.old self.new }
        ensures turn { result ≡ (calls_until_failure self.old == 1) }
    {
        let fails = self.until == 1;
        self.until = self.until.saturating_sub(1);
        fails
    }
}

impl<D: Source> Source for FailsAt<D> {
    ghost told = { source_told D.told };

    fn read(&mut self, buffer: &mut [u8]) -> Result<usize, ReadFault>
        ensures read { IsOneRead buffer.new (source_told D.told self.old) result (source_told D.told self.new) }
        ensures turn { TakesTurn (IsErr result)
            (IsOneRead buffer.new (D.told self.old.inner) result (D.told self.new.inner)) self.old self.new }
    {
        self.calls.add_one();
        self.least_room.meet(buffer.len());
        if self.takes_failing_turn() {
            self.failures.add_one();
            return Err(ReadFault);
        }
        let result = self.inner.read(buffer);
        if result.is_err() {
            self.failures.add_one();
        }
        result
    }
}

impl<D: Sink> Sink for FailsAt<D> {
    ghost told = { sink_told D.told };

    fn write_all(&mut self, bytes: &[u8]) -> Result<(), WriteFault>
        ensures write { IsOneWrite bytes.now (sink_told D.told self.old) result (sink_told D.told self.new) }
        ensures turn { TakesTurn (IsErr result)
            (IsOneWrite bytes.now (D.told self.old.inner) result (D.told self.new.inner)) self.old self.new }
    {
        self.calls.add_one();
        self.handed.extend(bytes);
        if self.takes_failing_turn() {
            self.failures.add_one();
            self.last_failed = true;
            return Err(WriteFault);
        }
        let result = self.inner.write_all(bytes);
        self.last_failed = result.is_err();
        if self.last_failed {
            self.failures.add_one();
        }
        result
    }
}
