//! One client.
ghost use Rattle.std.specs.Prelude.{◌≡◌, ◌<◌, true, false, [], ◌++◌, length, IfOk, OnOk, OnErr};
ghost use Rattle.mr_loop.specs.Turns.{flushed, fresh_client};
ghost use Rattle.mr_loop.specs.Unread.{unread};

use crate::out_buffer::OutBuffer;
use crate::turns::{Turn, Turns};
use mr_node::session::is_silent;
use mr_proxy::ProxyCore;
use mr_text::FixedBuffer;
use std::alloc::{AllocError, Global};

/// One client: what it asked, and what it is to be told.
#[derive(Drop)]
pub struct Client {
    /// The requests of which it wasn't told yet, in order.
    pub turns: Turns,
    /// The bytes that it is to be told.
    pub out: OutBuffer,
}

impl Client {
    /// A client that asked nothing yet.
    pub fn new(alloc: Global) -> Client
        ensures { result ≡ fresh_client }
    {
        Client {
            turns: Turns::new(alloc),
            out: OutBuffer::new(alloc),
        }
    }

    /// How many bytes of its answers it hasn't read: those that it is to be told, and those of answers that wait in turn.
    #[inline(always)]
    pub fn unread(&self) -> u128
        ensures { result ≡ unread self.now }
    {
        self.out.len() as u128 + self.turns.held()
    }

    /// Tells what is there for the first request, which leaves then: its lists go to the core. False where it isn't there. For want
    /// of memory nothing changes.
    #[inline(always)]
    fn tell_first(
        &mut self,
        core: &mut ProxyCore,
        buffer: &mut FixedBuffer,
    ) -> Result<bool, AllocError>
        ensures core { core.new ≡ core.old }
        ensures same { flushed self.new ≡ flushed self.old }
        ensures more { IfOk result (λ more. more ≡ true → length self.new.turns < length self.old.turns) }
        ensures none { IfOk result (λ more. more ≡ false → self.new ≡ flushed self.old) }
    {
        let Some(turn) = self.turns.front() else {
            return Ok(false);
        };
        match turn {
            Turn::Waits(_) => return Ok(false),
            Turn::Answered(answer) => {
                if !is_silent(answer.request()) {
                    self.out.put_answer(answer, buffer)?;
                }
            }
            Turn::Says(reply) => self.out.put_reply(reply, buffer)?,
        }
        if let Some(Turn::Answered(answer)) = self.turns.pop() {
            core.give_answer_back(answer);
        }
        Ok(true)
    }

    /// Puts what is there for the first requests behind what the client is to be told. For want of memory it stops before
    /// one of them.
    pub(crate) fn flush(
        &mut self,
        core: &mut ProxyCore,
        buffer: &mut FixedBuffer,
    ) -> Result<(), AllocError>
        ensures core { core.new ≡ core.old }
        ensures flushed { OnOk result (self.new ≡ flushed self.old) }
        ensures in_part { OnErr result (flushed self.new ≡ flushed self.old) }
    {
        'turn: loop {
            if !self.tell_first(core, buffer)? {
                return Ok(());
            }
        }
    }
}
