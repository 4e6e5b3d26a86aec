//! What became of an event.
ghost use Rattle.std.specs.Prelude.{◌≡◌};

use mr_history::OpId;

/// What became of an event.
#[derive(Clone, Copy, Debug, PartialEq, Eq)]
pub enum Note {
    /// It is done; there is nothing to tell.
    Nothing,
    /// The request was accepted, and its messages were sent.
    Issued {
        /// The request's name.
        op: OpId,
        /// The number of its first message; the others follow it.
        first: usize,
        /// How many messages there are.
        count: usize,
    },
    /// The node performed the message.
    Performed {
        /// The number of its reply.
        reply: usize,
    },
    /// The reply was noted, and others of the request are awaited.
    Waiting,
    /// The request was answered.
    Answered {
        /// The request's name.
        op: OpId,
    },
    /// No leg awaits the reply.
    Stranger,
}

impl Note {
    /// An equal note.
    pub fn copy(&self) -> Note
        ensures { result ≡ self.now }
    {
        *self
    }
}
