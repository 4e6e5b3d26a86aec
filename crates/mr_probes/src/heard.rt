//! What came of a reply.
ghost use Rattle.std.specs.Prelude.{◌≡◌, ◌++◌, []};
ghost use Rattle.mr_probes.specs.Heard.{HearsSo, coming_of};

use mr_text::{Reply, ReplyReader, TextError};
use std::alloc::Global;
use std::marker::Model;

/// What the bytes of a reply come to.
#[derive(Drop)]
pub(crate) enum Coming {
    /// They are the beginning of a reply.
    Part,
    /// They begin with this reply.
    Whole {
        /// The reply.
        reply: Reply,
        /// Whether nothing stands behind it.
        is_all: bool,
    },
    /// They begin with what is no reply.
    Nonsense,
    /// There was no memory for them.
    NoMemory,
}

/// The bytes that came and that no reply has taken.
#[derive(Drop)]
pub struct Heard {
    reader: ReplyReader,
}

impl Model for Heard {
    ghost use Rattle.std.specs.Prelude.{◌≡◌, ℕ, List, false};

    ghost Value = { List ℕ };

    ghost view = { λ h. h.reader.kept };

    ghost invariant = { λ h. (h.reader.closed ≡ false) × (h.reader.ended ≡ false) };
}

/// What a refusal says of the bytes.
fn coming_of(refusal: TextError) -> Coming
    ensures { result ≡ coming_of refusal }
{
    match refusal {
        TextError::OutOfMemory => Coming::NoMemory,
        _ => Coming::Nonsense,
    }
}

impl Heard {
    /// No bytes.
    pub(crate) fn new(alloc: Global) -> Heard
        ensures { result ≡ [] }
    {
        Heard {
            reader: ReplyReader::new(alloc),
        }
    }

    /// More bytes came. What is no reply is forgotten, and so is what there was no memory for.
    pub(crate) fn take(&mut self, alloc: Global, bytes: &[u8]) -> Coming
        ensures { HearsSo (self.old ++ bytes.now) result self.new }
    {
        if self.reader.feed(bytes).is_err() {
            self.reader = ReplyReader::new(alloc);
            return Coming::NoMemory;
        }
        match self.reader.next() {
            Ok(None) => Coming::Part,
            Ok(Some(reply)) => Coming::Whole {
                reply,
                is_all: self.reader.held() == 0,
            },
            Err(refusal) => {
                self.reader = ReplyReader::new(alloc);
                coming_of(refusal)
            }
        }
    }
}
