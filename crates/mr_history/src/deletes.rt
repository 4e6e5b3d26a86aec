//! The acknowledged deletes of each key, as an index keeps them: what they bound, found by a binary search.
ghost use Rattle.std.specs.Prelude.{ℕ, ◌+◌, ◌≤◌, List, OnOk};
ghost use Rattle.mr_history.specs.declared.entry.Entry.{Entry};
ghost use Rattle.mr_history.specs.steps.Index.{AreIssuedBy, AreBounds, AreBounded, BoundsWhatItKeeps, IsAcknowledgement};

use mr_text::Key;
use std::alloc::{AllocError, Global};
use std::collections::BTreeMap;

/// Each delete of the key that was acknowledged before the place was issued at the latest place or before it.
#[derive(Clone, Copy)]
struct Bound {
    place: usize,
    latest: usize,
}

/// The deletes of one key that were acknowledged so far.
#[derive(Drop)]
pub(crate) struct Deletes {
    /// A bound at the place of each acknowledgement, in order.
    bounds: Vec<Bound>,
    /// Each of the deletes was issued here or before.
    latest: usize,
}

impl Deletes {
    /// No delete.
    fn new(alloc: Global) -> Deletes
        ensures { (history : List Entry) (key : List ℕ) (read : ℕ)
            → AreIssuedBy history key read 0 → AreBounds history key read result }
    {
        Deletes {
            bounds: Vec::new(alloc),
            latest: 0,
        }
    }

    /// Adds the delete that was issued at the start and is acknowledged at this place.
    fn add(&mut self, place: usize, start: usize) -> Result<(), AllocError>
        ensures { OnOk result ((history : List Entry) (key : List ℕ)
            → IsAcknowledgement history key start place → AreBounds history key place self.old
            → AreBounds history key (place + 1) self.new) }
    {
        let latest = self.latest;
        self.bounds.push(Bound { place, latest })?;
        self.latest = latest.max(start);
        Ok(())
    }

    /// A place that no delete acknowledged before the given one was issued behind; the first such place, as the bounds
    /// come in order.
    fn latest_before(&self, place: usize) -> usize
        ensures { BoundsWhatItKeeps self.now place result }
    {
        let (mut low, mut high) = (0, self.bounds.len());
        while low < high {
            let middle = low + (high - low) / 2;
            if self.bounds[middle].place < place {
                low = middle + 1;
            } else {
                high = middle;
            }
        }
        match self.bounds.get(low) {
            Some(bound) if place <= bound.place => bound.latest,
            _ => self.latest,
        }
    }
}

/// Notes that a delete of the key that was issued at the start is acknowledged at this place.
pub(crate) fn note_delete<'a>(
    alloc: Global,
    deletes: &mut BTreeMap<&'a [u8], Deletes>,
    key: &'a Key,
    start: usize,
    place: usize,
) -> Result<(), AllocError>
    ensures { OnOk result ((history : List Entry) → IsAcknowledgement history key.now start place
        → AreBounded history place deletes.old → AreBounded history (place + 1) deletes.new) }
{
    let mut of_key = match deletes.remove(&key.as_bytes()) {
        Some(of_key) => of_key,
        None => Deletes::new(alloc),
    };
    of_key.add(place, start)?;
    deletes.insert(key.as_bytes(), of_key)?;
    Ok(())
}

/// A place that no delete of the key acknowledged before the given one was issued behind.
pub(crate) fn latest_delete<'a>(
    deletes: &BTreeMap<&'a [u8], Deletes>,
    key: &'a Key,
    place: usize,
) -> usize
    ensures { (history : List Entry) (read : ℕ) → AreBounded history read deletes.now
        → place ≤ read → AreIssuedBy history key.now place result }
{
    match deletes.get(&key.as_bytes()) {
        Some(of_key) => of_key.latest_before(place),
        None => 0,
    }
}
