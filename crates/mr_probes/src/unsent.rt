//! What of a request isn't written yet.
ghost use Rattle.std.specs.Prelude.{◌≡◌, ◌↔◌, ◌≤◌, [], drop, length, IfOk, IsTrue};
ghost use Rattle.mr_proxy.specs.NodeRequests.{text_for};

use mr_node::NodeCommand;
use mr_proxy::write_command;
use mr_text::{FixedBuffer, OverWriter};
use std::alloc::{AllocError, Global};
use std::marker::Model;

/// What of a request isn't written yet.
#[derive(Drop)]
pub struct Unsent {
    bytes: Vec<u8>,
    start: usize,
}

impl Model for Unsent {
    ghost use Rattle.std.specs.Prelude.{ℕ, List, ◌≤◌, length, drop};

    ghost Value = { List ℕ };

    ghost view = { λ u. drop u.start u.bytes.items };

    ghost invariant = { λ u. u.start ≤ length u.bytes.items };
}

impl Unsent {
    /// The whole request for a command.
    pub(crate) fn of(
        alloc: Global,
        command: &NodeCommand,
        buffer: &mut FixedBuffer,
    ) -> Result<Unsent, AllocError>
        ensures { IfOk result (λ unsent. unsent ≡ text_for command.now) }
    {
        let mut writer = OverWriter::new(Vec::new(alloc));
        match write_command(command, buffer, &mut writer) {
            Ok(()) => Ok(Unsent {
                bytes: writer.into_inner(),
                start: 0,
            }),
            Err(_) => Err(AllocError),
        }
    }

    /// What isn't written yet.
    pub(crate) fn as_slice(&self) -> &[u8]
        ensures { result.now ≡ self.now }
    {
        &self.bytes[self.start..]
    }

    /// Whether all is written.
    pub(crate) fn is_empty(&self) -> bool
        ensures { IsTrue result ↔ (self.now ≡ []) }
    {
        self.as_slice().is_empty()
    }

    /// So many bytes more were written; all, where there are no more.
    pub(crate) fn advance(&mut self, count: usize)
        ensures { self.new ≡ drop count self.old }
    {
        if count < self.bytes.len() - self.start {
            self.start += count;
        } else {
            self.start = self.bytes.len();
        }
    }
}
