//! Lists that requests which are over have left for those to come.

use crate::leg::Leg;
use crate::slot::Slot;
use mr_text::Item;
use std::alloc::Global;
use std::mem;

/// So many lists of each kind are kept.
const MOST_LISTS: usize = 64;

/// A list is kept that has memory for so many, and no longer one.
const MOST_KEPT: usize = 64;

/// Lists that requests which are over have left, so that those to come take no memory for theirs. They are empty.
#[derive(Debug, Drop)]
pub(crate) struct Lists {
    legs: Vec<Leg>,
    slots: Vec<Vec<Slot>>,
    items: Vec<Vec<Item>>,
}

impl Lists {
    /// None yet.
    pub(crate) fn new(alloc: Global) -> Lists {
        Lists {
            legs: Vec::new(alloc),
            slots: Vec::new(alloc),
            items: Vec::new(alloc),
        }
    }

    /// A list for legs.
    #[inline(always)]
    pub(crate) fn take_legs(&mut self) -> Vec<Leg> {
        let alloc = *self.legs.allocator();
        mem::replace(&mut self.legs, Vec::new(alloc))
    }

    /// A list for slots.
    #[inline(always)]
    pub(crate) fn take_slots(&mut self) -> Vec<Slot> {
        match self.slots.pop() {
            Some(slots) => slots,
            None => Vec::new(*self.slots.allocator()),
        }
    }

    /// A list for items.
    #[inline(always)]
    pub(crate) fn take_items(&mut self) -> Vec<Item> {
        match self.items.pop() {
            Some(items) => items,
            None => Vec::new(*self.items.allocator()),
        }
    }

    /// Keeps a list of legs, which are dropped.
    #[inline(always)]
    pub(crate) fn keep_legs(&mut self, mut legs: Vec<Leg>) {
        legs.clear();
        if legs.capacity() <= MOST_KEPT {
            self.legs = legs;
        }
    }

    /// Keeps a list of slots, which are dropped.
    #[inline(always)]
    pub(crate) fn keep_slots(&mut self, mut slots: Vec<Slot>) {
        slots.clear();
        if slots.capacity() <= MOST_KEPT && self.slots.len() < MOST_LISTS {
            let _ = self.slots.push(slots);
        }
    }

    /// Keeps a list of items, which are dropped, unless it has no memory.
    #[inline(always)]
    pub(crate) fn keep_items(&mut self, mut items: Vec<Item>) {
        items.clear();
        let has_memory = items.capacity() > 0;
        if has_memory && items.capacity() <= MOST_KEPT && self.items.len() < MOST_LISTS {
            let _ = self.items.push(items);
        }
    }
}
