//! An index over the front of a history: where a request was issued, where an item was stored last, and which deletes of
//! a key were acknowledged.
ghost use Rattle.std.specs.Prelude.{◌≡◌, ◌<◌, ◌≤◌, ◌+◌, List, length, position, take, IfSome, OnOk, MatchOption};
ghost use Rattle.std.specs.Bool.{OnTrue};
ghost use Rattle.std.specs.Option.{option_copied};
ghost use Rattle.mr_history.specs.History.{IsWellFormed, IsFreshHit, IsStored, WasIssued};
ghost use Rattle.mr_history.specs.steps.Tests.{is_issued_get};
ghost use Rattle.mr_history.specs.declared.entry.Entry.{Entry};
ghost use Rattle.mr_history.specs.Places.{At};
ghost use Rattle.mr_history.specs.steps.Index.{AcknowledgesNothing, IsAcknowledgement, IsIndex, IsDelete, IsNoDelete, KnowsIssues, deleted_key};

use crate::deletes::{Deletes, latest_delete, note_delete};
use crate::entry::Entry;
use crate::op_id::OpId;
use crate::search::{acknowledges, is_issued_get, is_stored};
use mr_text::{Item, Key, Request};
use std::alloc::{AllocError, Global};
use std::collections::{BTreeMap, HashMap};

/// An index over the first entries of a list.
#[derive(Drop)]
pub(crate) struct Index<'a> {
    /// The whole list.
    entries: &'a [Entry],
    /// How many of the entries were read.
    read: usize,
    /// Where each request was issued.
    issues: HashMap<OpId, usize>,
    /// Where each item was stored last, by its key, flags and data.
    stores: BTreeMap<(&'a [u8], u32, &'a [u8]), usize>,
    /// The acknowledged deletes of each key.
    deletes: BTreeMap<&'a [u8], Deletes>,
}

/// Notes where a request was issued.
fn note_issue(
    issues: &mut HashMap<OpId, usize>,
    entry: &Entry,
    place: usize,
) -> Result<(), AllocError>
    ensures { OnOk result ((history : List Entry) → IsWellFormed history
        → At history place entry.now → KnowsIssues history place issues.old
        → KnowsIssues history (place + 1) issues.new) }
{
    if let Entry::Issued { op, .. } = entry {
        issues.insert(*op, place)?;
    }
    Ok(())
}

/// Notes where an item was stored.
fn note_store<'a>(
    stores: &mut BTreeMap<(&'a [u8], u32, &'a [u8]), usize>,
    entry: &'a Entry,
    place: usize,
) -> Result<(), AllocError> {
    if let Entry::Stored {
        key,
        flags,
        block,
        ..
    } = entry
    {
        stores.insert((key.as_bytes(), *flags, block.as_bytes()), place)?;
    }
    Ok(())
}

/// The key of the delete that the entry issues.
fn deleted_key(entry: &Entry) -> Option<&Key>
    ensures { option_copied result ≡ deleted_key entry.now }
{
    match entry {
        Entry::Issued {
            request: Request::Delete { key, .. },
            ..
        } => Some(key),
        _ => None,
    }
}

impl<'a> Index<'a> {
    /// An index over none of the entries.
    pub fn new(alloc: Global, entries: &'a [Entry]) -> Index<'a>
        ensures indexed { IsIndex result }
        ensures entries { result.entries.now ≡ entries.now }
        ensures read { result.read ≡ 0 }
    {
        Index {
            entries,
            read: 0,
            issues: HashMap::new(alloc),
            stores: BTreeMap::new(alloc),
            deletes: BTreeMap::new(alloc),
        }
    }

    /// The key of an op that was issued as a delete, and where it was.
    fn delete_of(&self, op: OpId) -> Option<(&'a Key, usize)>
        requires indexed { IsIndex self.now }
        requires well_formed { IsWellFormed self.now.entries.now }
        requires issued { WasIssued (take self.now.read self.now.entries.now) op }
        ensures { MatchOption result (IsNoDelete self.now.entries.now op)
            (λ found. IsDelete self.now.entries.now op found.0.now found.1) }
    {
        let start = *self.issues.get(&op)?;
        let entry = self.entries.get(start)?;
        let key = deleted_key(entry)?;
        Some((key, start))
    }

    /// The key of the delete that the next entry acknowledges, and where it was issued.
    fn acknowledged(&self, entry: &'a Entry) -> Option<(&'a Key, usize)>
        requires indexed { IsIndex self.now }
        requires well_formed { IsWellFormed self.now.entries.now }
        requires next { At self.now.entries.now self.now.read entry.now }
        ensures { MatchOption result
            (AcknowledgesNothing self.now.entries.now self.now.read)
            (λ found. IsAcknowledgement self.now.entries.now found.0.now found.1 self.now.read) }
    {
        match entry {
            Entry::Answered { op, reply } if acknowledges(reply) => self.delete_of(*op),
            _ => None,
        }
    }

    /// Reads the next entry.
    pub fn read_next(&mut self, alloc: Global) -> Result<(), AllocError>
        requires indexed { IsIndex self.old }
        requires well_formed { IsWellFormed self.old.entries.now }
        requires more { self.old.read < length self.old.entries.now }
        ensures indexed { OnOk result (IsIndex self.new) }
        ensures entries { self.new.entries ≡ self.old.entries }
        ensures read { OnOk result (self.new.read ≡ self.old.read + 1) }
    {
        let place = self.read;
        let entry = &self.entries[place];
        let acknowledged = self.acknowledged(entry);
        note_issue(&mut self.issues, entry, place)?;
        note_store(&mut self.stores, entry, place)?;
        if let Some((key, start)) = acknowledged {
            note_delete(alloc, &mut self.deletes, key, start, place)?;
        }
        self.read = place + 1;
        Ok(())
    }

    /// Where the op's Issued entry stands, where it is a get that was issued in what was read.
    pub fn issue_of_get(&self, get: OpId) -> Option<usize>
        requires indexed { IsIndex self.now }
        requires well_formed { IsWellFormed self.now.entries.now }
        requires issued { WasIssued (take self.now.read self.now.entries.now) get }
        ensures { result ≡ position (is_issued_get get) self.now.entries.now }
    {
        let issue = *self.issues.get(&get)?;
        if is_issued_get(self.entries.get(issue)?, get) {
            Some(issue)
        } else {
            None
        }
    }

    /// The last place that stored the item, of those that were read.
    fn last_stored(&self, item: &'a Item) -> Option<usize>
        ensures { IfSome result (λ place. (place < self.now.read) × IsStored self.now.entries.now item.now place) }
    {
        let value = (item.key.as_bytes(), item.flags, item.block.as_bytes());
        let place = *self.stores.get(&value)?;
        let entry = self.entries.get(place)?;
        if place < self.read && is_stored(entry, item) {
            Some(place)
        } else {
            None
        }
    }

    /// Whether an item of the next entry, which answers a get, is seen to be fresh, as each item is that is fresh.
    pub fn shows_fresh(&self, item: &'a Item, issue: usize) -> bool
        requires indexed { IsIndex self.now }
        requires issued { issue ≤ self.now.read }
        ensures { OnTrue result (IsFreshHit self.now.entries.now item.now issue self.now.read) }
    {
        match self.last_stored(item) {
            Some(stored) if latest_delete(&self.deletes, &item.key, issue) <= stored => true,
            _ => false,
        }
    }
}
