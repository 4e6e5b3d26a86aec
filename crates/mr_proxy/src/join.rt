//! The one reply to a request, by what its legs came to.
ghost use Rattle.std.specs.Prelude.{◌≡◌, ◌≤◌, ◌<◌, [], map, length, slice_get, vec_len, vec_capacity};
ghost use Rattle.mr_text.specs.Limits.{MAX_ITEMS};
ghost use Rattle.mr_proxy.specs.Slots.{reply_of_slot};
ghost use Rattle.mr_proxy.specs.steps.Room.{HasRoomFor, most_items};
ghost use Rattle.mr_join.specs.Join.{joined_reply, hits_of, worst_of, reply_by};

use crate::slot::Slot;
use mr_join::LegReply;
use mr_text::{Cause, Item, ItemList, Key, Reply, Request};

/// The place of the leg that came to the worst: of those that are as bad, the first.
#[inline(always)]
pub(crate) fn place_of_worst(slots: &[Slot]) -> usize
    requires { 1 ≤ length slots.now }
    ensures within { result < length slots.now }
    ensures worst { slice_get (map reply_of_slot slots.now) result ≡ worst_of (map reply_of_slot slots.now) }
{
    let mut worst = 0;
    for (place, slot) in slots.iter().enumerate() {
        if slot.is_worse_than(&slots[worst]) {
            worst = place;
        }
    }
    worst
}

/// Puts what the legs of these keys found into the room for it.
fn into_hits(keys: Vec<Key>, slots: Vec<Slot>, mut items: Vec<Item>) -> Vec<Item>
    requires unused { items.items ≡ [] }
    requires fits { vec_len keys ≤ vec_capacity items }
    ensures hits { result.items ≡ hits_of keys.items (map reply_of_slot slots.items) }
    ensures few { vec_len result ≤ vec_len keys }
{
    let mut slots = slots.into_iter();
    for key in keys {
        let Some(slot) = slots.next() else { break };
        if let LegReply::Hit { flags, block } = slot.into_outcome() {
            items.push_reserved(Item { key, flags, block });
        }
    }
    items
}

/// What the legs of these keys found. A single item needs no room.
fn found(mut keys: Vec<Key>, mut slots: Vec<Slot>, items: Vec<Item>) -> ItemList
    requires key { 1 ≤ length keys.items }
    requires few { length keys.items ≤ MAX_ITEMS }
    requires leg { 1 ≤ length slots.items }
    requires unused { items.items ≡ [] }
    requires fits { 1 < length keys.items → length keys.items ≤ vec_capacity items }
    ensures { result ≡ hits_of keys.items (map reply_of_slot slots.items) }
{
    if keys.len() > 1 {
        return ItemList::new(into_hits(keys, slots, items));
    }
    match (keys.pop(), slots.swap_remove(0).into_outcome()) {
        (Some(key), LegReply::Hit { flags, block }) => ItemList::one(Item { key, flags, block }),
        _ => ItemList::new(items),
    }
}

/// The reply to a set or a delete whose worst leg came to this, or to a get that failed by it.
fn reply_by(outcome: LegReply) -> Reply
    ensures { result ≡ reply_by outcome }
{
    match outcome {
        LegReply::Stored => Reply::Stored,
        LegReply::Deleted => Reply::Deleted,
        LegReply::NotFound => Reply::NotFound,
        LegReply::Failed(cause) => Reply::ServerError(cause),
        LegReply::Hit { .. } | LegReply::Miss => Reply::ServerError(Cause::LegLost),
    }
}

/// The one reply to a request, whose items go into the room for them.
#[tactic(auto, using(crate::proofs::JoinLemmas::found_by_worst, crate::proofs::JoinLemmas::failed_by_worst))]
pub(crate) fn join_replies(request: Request, mut slots: Vec<Slot>, items: Vec<Item>) -> Reply
    requires legs { 1 ≤ length slots.items }
    requires room { HasRoomFor request items.items (vec_capacity items) }
    ensures { result ≡ joined_reply request (map reply_of_slot slots.items) }
{
    let worst = place_of_worst(&slots);
    match request {
        Request::Get { keys } if !slots[worst].has_failed() => {
            Reply::Items(found(keys.into_vec(), slots, items))
        }
        _ => reply_by(slots.swap_remove(worst).into_outcome()),
    }
}
