//! One client: its connection, and the request that is under way over it.
ghost use Rattle.std.specs.Prelude.{◌≡◌};
ghost use Rattle.mr_probes.specs.Clients.{HearsReply, HearsBytes, is_late, is_late_client, is_waiting, is_up, is_idle, output_of, with_written};

use crate::answering::{Said, said_of};
use crate::heard::{Coming, Heard};
use crate::notebook::Notebook;
use crate::unsent::Unsent;
use mr_canary::Probe;
use mr_node::NodeCommand;
use std::alloc::Global;

/// A request.
#[derive(Drop)]
pub struct Asking {
    /// How the judge knows it.
    pub probe: Probe,
    /// What is asked.
    pub command: NodeCommand,
    /// Whether it is the last delete of its key.
    pub cleans: bool,
}

/// A request that waits for its reply.
#[derive(Drop)]
pub struct Waiting {
    /// The request.
    pub asking: Asking,
    /// What of it isn't written yet.
    pub unsent: Unsent,
    /// What came of its reply.
    pub heard: Heard,
}

/// A client.
#[derive(Drop)]
pub enum Client {
    /// It has no connection.
    Down,
    /// It has one, and asks nothing.
    Idle,
    /// It waits for a reply.
    Waits(Waiting),
}

/// What bytes come to that came over a client's connection.
#[derive(Clone, Copy, Debug, PartialEq, Eq)]
pub enum Hearing {
    /// The reply isn't whole.
    Part,
    /// This came of the request. Nothing stands behind the reply, or something does.
    Says {
        /// What came of it.
        said: Said,
        /// Whether nothing stands behind the reply.
        is_all: bool,
    },
    /// No reply to a request stands there.
    Nonsense,
    /// There was no memory for them.
    NoMemory,
}

impl Waiting {
    /// Whether it waits for longer than so many microseconds.
    fn is_late(&self, give_up: u64, now: u64) -> bool
        ensures { result ≡ is_late give_up now self.now }
    {
        now.saturating_sub(self.asking.probe.time) > give_up
    }

    /// Bytes came. A reply to a request that isn't written yet is none.
    fn hear(&mut self, alloc: Global, run: u64, sets: u64, bytes: &[u8]) -> Hearing
        ensures { HearsReply run sets bytes.now self.old result self.new }
    {
        if !self.unsent.is_empty() {
            return Hearing::Nonsense;
        }
        match self.heard.take(alloc, bytes) {
            Coming::Part => Hearing::Part,
            Coming::Nonsense => Hearing::Nonsense,
            Coming::NoMemory => Hearing::NoMemory,
            Coming::Whole { reply, is_all } => {
                let key = self.asking.probe.key;
                match said_of(&self.asking.command, run, key, sets, reply) {
                    Some(said) => Hearing::Says { said, is_all },
                    None => Hearing::Nonsense,
                }
            }
        }
    }
}

impl Client {
    /// Whether it has a connection.
    pub(crate) fn is_up(&self) -> bool
        ensures { result ≡ is_up self.now }
    {
        match self {
            Client::Down => false,
            _ => true,
        }
    }

    /// Whether it has a connection, and asks nothing.
    pub(crate) fn is_idle(&self) -> bool
        ensures { result ≡ is_idle self.now }
    {
        match self {
            Client::Idle => true,
            _ => false,
        }
    }

    /// Whether it waits for a reply.
    pub(crate) fn is_waiting(&self) -> bool
        ensures { result ≡ is_waiting self.now }
    {
        match self {
            Client::Waits(_) => true,
            _ => false,
        }
    }

    /// Whether it waits for longer than so many microseconds.
    pub(crate) fn is_late(&self, give_up: u64, now: u64) -> bool
        ensures { result ≡ is_late_client give_up now self.now }
    {
        match self {
            Client::Waits(waiting) => waiting.is_late(give_up, now),
            _ => false,
        }
    }

    /// What is to be written over its connection.
    pub(crate) fn output(&self) -> &[u8]
        ensures { result.now ≡ output_of self.now }
    {
        match self {
            Client::Waits(waiting) => waiting.unsent.as_slice(),
            _ => &[],
        }
    }

    /// So many bytes of that were written.
    pub(crate) fn advance(&mut self, count: usize)
        ensures { self.new ≡ with_written count self.old }
    {
        if let Client::Waits(waiting) = self {
            waiting.unsent.advance(count);
        }
    }

    /// Bytes came over its connection.
    pub(crate) fn hear(&mut self, alloc: Global, notebook: &Notebook, bytes: &[u8]) -> Hearing
        ensures { HearsBytes notebook.now bytes.now self.old result self.new }
    {
        match self {
            Client::Waits(waiting) => {
                let sets = notebook.sets(waiting.asking.probe.key);
                waiting.hear(alloc, notebook.run(), sets, bytes)
            }
            _ => Hearing::Nonsense,
        }
    }
}
