//! The items of one answer.
ghost use Rattle.std.specs.Prelude.{◌≡◌, ◌≢◌, ◌≤◌, [], ◌∷◌, length, reverse, IfOk, MatchOption, vec_len, ◌↔◌, IsTrue};

use crate::item::Item;
use crate::limits::MAX_ITEMS;
use std::alloc::{AllocError, Global};
use std::marker::Model;
use std::slice;

/// Where the items of an answer stand.
#[derive(Debug, Drop)]
pub(crate) enum ItemPlace {
    /// The only one, in the list itself.
    One(Item),
    /// Any number, in memory of their own.
    Many(Vec<Item>),
}

/// The items of one answer, in order: up to 4,094. The list of one item takes no memory of its own.
#[derive(Debug)]
pub struct ItemList {
    place: ItemPlace,
}

// By hand, so that who drops a list needs to know nothing of its places.
impl Drop for ItemList {
    fn drop(self) {
        let ItemList { place: _ } = self;
    }
}

impl Model for ItemList {
    ghost use Rattle.std.specs.Prelude.{List, ◌≤◌, length};
    ghost use Rattle.mr_text.specs.declared.item.Item.{Item};
    ghost use Rattle.mr_text.specs.Limits.{MAX_ITEMS};
    ghost use Rattle.mr_text.specs.steps.ItemPlace.{items_at};

    ghost Value = { List Item };

    ghost view = { λ l. items_at l.place };

    ghost invariant = { λ l. length (items_at l.place) ≤ MAX_ITEMS };
}

impl ItemList {
    /// The list of these items.
    #[inline(always)]
    pub fn new(items: Vec<Item>) -> ItemList
        requires { vec_len items ≤ MAX_ITEMS }
        ensures { result ≡ items.items }
    {
        ItemList {
            place: ItemPlace::Many(items),
        }
    }

    /// The list of one item. It takes no memory.
    #[inline(always)]
    pub fn one(item: Item) -> ItemList
        ensures { result ≡ item ∷ [] }
    {
        ItemList {
            place: ItemPlace::One(item),
        }
    }

    /// The items in order.
    #[inline(always)]
    pub fn as_slice(&self) -> &[Item]
        ensures items { result.now ≡ self.now }
        ensures within { length result.now ≤ MAX_ITEMS }
    {
        match &self.place {
            ItemPlace::One(item) => slice::from_ref(item),
            ItemPlace::Many(items) => items.as_slice(),
        }
    }

    /// The item of a list of one. None where there are none or more. It takes no memory.
    #[inline(always)]
    pub fn into_only(self) -> Option<Item>
        ensures { MatchOption result (length self ≢ 1) (λ item. self ≡ item ∷ []) }
    {
        let ItemList { place } = self;
        match place {
            ItemPlace::One(item) => Some(item),
            ItemPlace::Many(items) => only_of(items),
        }
    }

    /// The first item, and those behind it from the last one on, so that each can be taken in order. It takes no memory.
    #[inline(always)]
    pub fn into_reversed(self, alloc: Global) -> (Option<Item>, Vec<Item>)
        ensures { MatchOption result.0 (self ≡ []) (λ item. self ≡ item ∷ reverse result.1.items) }
    {
        let ItemList { place } = self;
        match place {
            ItemPlace::One(item) => (Some(item), Vec::new(alloc)),
            ItemPlace::Many(mut items) => {
                items.reverse();
                let first = items.pop();
                (first, items)
            }
        }
    }

    /// Whether the other list is equal.
    pub fn same_as(&self, other: &ItemList) -> bool
        ensures { IsTrue result ↔ (self.now ≡ other.now) }
    {
        same_items(self.as_slice(), other.as_slice())
    }

    /// An equal list.
    pub fn copy(&self) -> Result<ItemList, AllocError>
        ensures { IfOk result (λ list. list ≡ self.now) }
    {
        let place = match &self.place {
            ItemPlace::One(item) => ItemPlace::One(item.copy()?),
            ItemPlace::Many(items) => ItemPlace::Many(copied(items)?),
        };
        Ok(ItemList { place })
    }
}

/// The only one of these items.
fn only_of(mut items: Vec<Item>) -> Option<Item>
    ensures { MatchOption result (length items.items ≢ 1) (λ item. items.items ≡ item ∷ []) }
{
    if items.len() == 1 { items.pop() } else { None }
}

/// Equal items.
fn copied(items: &Vec<Item>) -> Result<Vec<Item>, AllocError>
    ensures { IfOk result (λ copies. copies.items ≡ items.now.items) }
{
    let mut copies = Vec::with_capacity(*items.allocator(), items.len())?;
    for item in items {
        copies.push(item.copy()?)?;
    }
    Ok(copies)
}

/// Whether both lists are equal.
fn same_items(items: &[Item], others: &[Item]) -> bool
    ensures { IsTrue result ↔ (items.now ≡ others.now) }
{
    if items.len() != others.len() {
        return false;
    }
    for (place, item) in items.iter().enumerate() {
        if !item.same_as(&others[place]) {
            return false;
        }
    }
    true
}
