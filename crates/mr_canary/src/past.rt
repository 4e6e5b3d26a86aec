//! All notes that were taken, which only contracts see.
ghost use Rattle.std.specs.Prelude.{◌≡◌, [], ◌∷◌, ◌++◌};

use crate::note::Note;
use std::marker::Model;
use std::snapshot::Snapshot;

/// What was noted: nothing, or one more note after those that contracts remember.
#[derive(Drop)]
pub(crate) enum Noted {
    /// Nothing yet.
    Nothing,
    /// One more note.
    More(Snapshot<Noted>, Snapshot<Note>),
}

/// The notes that were taken, which contracts see as a list and the program doesn't keep.
#[derive(Drop)]
pub(crate) struct Past {
    noted: Noted,
}

impl Model for Past {
    ghost use Rattle.std.specs.Prelude.{List};
    ghost use Rattle.mr_canary.specs.declared.note.Note.{Note};
    ghost use Rattle.mr_canary.specs.steps.Past.{notes_of};

    ghost Value = { List Note };

    ghost view = { λ p. notes_of p.noted };
}

impl Past {
    /// No notes.
    pub(crate) fn new() -> Past
        ensures { result ≡ [] }
    {
        Past {
            noted: Noted::Nothing,
        }
    }

    /// Adds a note at the end.
    pub(crate) fn add(&mut self, note: Note)
        ensures { self.new ≡ self.old ++ note ∷ [] }
    {
        let before = Snapshot::of(&self.noted);
        let last = Snapshot::of(&note);
        self.noted = Noted::More(before, last);
    }
}
