//! Histories: what happened to a fleet's requests, in the order in which it happened.
ghost use Rattle.std.specs.Prelude.{◌≡◌, ◌↔◌, ◌+◌, ◌-◌, ◌≤◌, [], ◌∷◌, ◌++◌, ℕ, IsTrue, IfOk, MatchResult, Ok};
ghost use Rattle.mr_history.specs.History.{Fits, IsKnown, IsWellFormed};

use crate::entry::{Author, Entry};
use crate::error::HistoryError;
use crate::search::{was_answered, was_issued};
use std::alloc::{AllocError, Global};
use std::marker::Model;

/// A list of entries, each of which fits those before it, with room that was made for more.
#[derive(Debug, Drop)]
pub struct History {
    entries: Vec<Entry>,
}

impl Model for History {
    ghost use Rattle.std.specs.Prelude.{◌-◌, vec_len, vec_capacity};
    ghost use Rattle.mr_history.specs.HistoryView.{HistoryView};
    ghost use Rattle.mr_history.specs.History.{IsWellFormed};

    ghost Value = { HistoryView };

    ghost view = { λ h. record { entries = h.entries.items; spare = vec_capacity h.entries - vec_len h.entries } };

    ghost invariant = { λ h. IsWellFormed h.entries.items };
}

/// Whether an item was held from the beginning on, or its op was issued.
fn is_known(entries: &[Entry], by: Author) -> bool
    ensures { IsTrue result ↔ IsKnown entries.now by }
{
    match by {
        Author::Beginning => true,
        Author::By(op) => was_issued(entries, op),
    }
}

impl History {
    ghost use Rattle.mr_history.specs.declared.error.HistoryError.TheVariants.{OutOfMemory};

    /// An empty history. It takes no memory yet.
    pub fn new(alloc: Global) -> Result<History, HistoryError>
        ensures { result ≡ Ok (record { entries = []; spare = 0 }) }
    {
        Ok(History {
            entries: Vec::new(alloc),
        })
    }

    /// Makes room for so many more entries. The entries stay, whatever the result.
    pub fn reserve(&mut self, more: usize) -> Result<(), HistoryError>
        ensures entries { self.new.entries ≡ self.old.entries }
        ensures spare { MatchResult result
            (λ _. (more ≤ self.new.spare) × (self.old.spare ≤ self.new.spare))
            (λ e. (e ≡ OutOfMemory) × (self.new ≡ self.old)) }
    {
        self.entries.reserve(more)?;
        Ok(())
    }

    /// How many more entries there is room for.
    pub fn spare(&self) -> usize
        ensures { result ≡ self.now.spare }
    {
        self.entries.capacity() - self.entries.len()
    }

    /// The entries in order.
    pub fn entries(&self) -> &[Entry]
        ensures entries { result.now ≡ self.now.entries }
        ensures well_formed { IsWellFormed result.now }
    {
        self.entries.as_slice()
    }

    /// Whether the entry may come next. An Issued entry needs a new op whose proxy is its own, an Answered entry an op
    /// that was issued and not answered, and any other an op that was issued or the beginning.
    pub fn fits(&self, entry: &Entry) -> bool
        ensures { IsTrue result ↔ Fits self.now.entries entry.now }
    {
        let entries = self.entries();
        match entry {
            Entry::Issued { op, proxy, .. } => op.proxy == *proxy && !was_issued(entries, *op),
            Entry::Stored { by, .. } => is_known(entries, *by),
            Entry::Removed { op, .. } => was_issued(entries, *op),
            Entry::Answered { op, .. } => was_issued(entries, *op) && !was_answered(entries, *op),
        }
    }

    /// Appends an entry.
    pub fn push(&mut self, entry: Entry)
        requires fits { Fits self.old.entries entry }
        requires spare { 1 ≤ self.old.spare }
        ensures { self.new ≡ record { entries = self.old.entries ++ entry ∷ []; spare = self.old.spare - 1 } }
    {
        self.entries.push_reserved(entry);
    }

    /// A history of equal entries.
    pub fn copy(&self) -> Result<History, AllocError>
        ensures { IfOk result (λ history. history.entries ≡ self.now.entries) }
    {
        let mut entries = Vec::with_capacity(*self.entries.allocator(), self.entries.len())?;
        for entry in &self.entries {
            entries.push(entry.copy()?)?;
        }
        Ok(History { entries })
    }
}
