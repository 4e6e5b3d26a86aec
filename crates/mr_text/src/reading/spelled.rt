//! The bytes of an unfinished text that were read already, which only contracts see.
ghost use Rattle.std.specs.Prelude.{◌≡◌, ◌++◌, [], take};

use crate::reading::kept::KeptBytes;
use std::marker::Model;
use std::snapshot::Snapshot;

/// Bytes that were read: none, or so many at the front of some bytes, after those read before.
#[derive(Drop)]
pub(crate) enum Spelling {
    Nothing,
    More(Snapshot<Spelling>, Snapshot<KeptBytes>, Snapshot<usize>),
}

/// The bytes that were read, which the program doesn't keep.
#[derive(Drop)]
pub(crate) struct SpelledBytes {
    spelling: Spelling,
}

impl Model for SpelledBytes {
    ghost use Rattle.std.specs.Prelude.{ℕ, List};

    ghost Value = { List ℕ };

    ghost use Rattle.mr_text.specs.steps.Spelled.{bytes_of};

    ghost view = { λ s. bytes_of s.spelling };
}

impl SpelledBytes {
    /// No bytes.
    pub(crate) fn new() -> SpelledBytes
        ensures { result ≡ [] }
    {
        SpelledBytes {
            spelling: Spelling::Nothing,
        }
    }

    /// These bytes and so many more, which are some bytes' front.
    pub(crate) fn and(&self, bytes: &KeptBytes, count: usize) -> SpelledBytes
        ensures { result ≡ self.now ++ take count bytes.now }
    {
        let before = Snapshot::of(&self.spelling);
        SpelledBytes {
            spelling: Spelling::More(before, Snapshot::of(bytes), Snapshot::of(&count)),
        }
    }
}
