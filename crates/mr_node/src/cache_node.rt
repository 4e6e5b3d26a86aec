//! A memory cache of a bounded number of items, as one node of a pool.
ghost use Rattle.std.specs.Prelude.{◌≡◌, ◌<◌, ◌≤◌, ◌↔◌, [], length, IsTrue, Option, None, MatchResult, OnErr};
ghost use Rattle.std.specs.Option.{option_copied};

use crate::cached_item::CachedItem;
use crate::command::NodeCommand;
use crate::error::NodeError;
use crate::expiry::{expiry_of, is_alive};
use crate::key_hashing::KeyHashing;
use crate::perform::Perform;
use lru::LruCache;
use mr_join::LegReply;
use mr_text::Key;
use std::alloc::{AllocError, Global};
use std::hash::RandomState;
use std::marker::Model;
use std::num::NonZeroUsize;

/// A cache of at most so many items. A new one drops the item that wasn't used for the longest time. A command looks at its
/// own item alone, and at the last where it drops that, however many there are.
#[derive(Drop)]
pub struct CacheNode {
    items: LruCache<Key, CachedItem, KeyHashing>,
}

impl Model for CacheNode {
    ghost use Rattle.mr_node.specs.Recency.{CacheView};
    ghost use Rattle.mr_node.specs.Items.{IsCacheContent};

    ghost Value = { CacheView };

    ghost view = { λ c. record { capacity = c.items.cap; items = c.items.entries } };

    ghost invariant = { λ c. IsCacheContent c.items.cap c.items.entries };
}

impl CacheNode {
    ghost use Rattle.mr_node.specs.Recency.{RecencyStep, MayLackMemory, IsNewCache, live_item, after_set};
    ghost use Rattle.mr_node.specs.Expiry.{is_alive};
    ghost use Rattle.mr_node.specs.Items.{item_of};
    ghost use Rattle.mr_join.specs.declared.leg_reply.LegReply.TheVariants.{Stored};
    ghost use Rattle.mr_node.specs.declared.command.NodeCommand.TheVariants.{Get, Set, Delete};

    /// An empty cache, or ZeroCapacity where it could hold nothing. No room is reserved for items. Keys are hashed alike in
    /// each process: where strangers choose them, make it by `seeded`.
    pub fn new(alloc: Global, capacity: usize) -> Result<CacheNode, NodeError>
        ensures { IsNewCache capacity result }
    {
        CacheNode::with_hashing(alloc, capacity, KeyHashing::Fixed)
    }

    /// The same, its keys hashed by a seed, so that whoever doesn't know it can't choose keys that fall together.
    pub fn seeded(alloc: Global, capacity: usize, seed: RandomState) -> Result<CacheNode, NodeError>
        ensures { IsNewCache capacity result }
    {
        CacheNode::with_hashing(alloc, capacity, KeyHashing::Seeded(seed))
    }

    fn with_hashing(
        alloc: Global,
        capacity: usize,
        hashing: KeyHashing,
    ) -> Result<CacheNode, NodeError>
        ensures { IsNewCache capacity result }
    {
        let Some(capacity) = NonZeroUsize::new(capacity) else {
            return Err(NodeError::ZeroCapacity);
        };
        // An unbounded one reserves no room, and it is empty when it gets its bound.
        let mut items = LruCache::unbounded_with_hasher(alloc, hashing)?;
        items.resize(capacity);
        Ok(CacheNode { items })
    }

    /// How many items are kept, expired ones among them.
    pub fn len(&self) -> usize
        ensures length { result ≡ length self.now.items }
        ensures within { result ≤ self.now.capacity }
    {
        self.items.len()
    }

    /// Whether no item is kept.
    pub fn is_empty(&self) -> bool
        ensures { IsTrue result ↔ (self.now.items ≡ []) }
    {
        self.items.is_empty()
    }

    /// The item under this key, expired or not. The order of use stays.
    pub fn peek(&self, key: &Key) -> Option<&CachedItem>
        ensures { option_copied result ≡ item_of key.now self.now.items }
    {
        self.items.peek(key)
    }

    /// Drops all items.
    pub fn restart(&mut self)
        ensures { self.new ≡ record self.old { items = [] } }
    {
        self.items.clear();
    }

    /// What a get comes to. Its block is copied before the order changes, so that want of memory leaves both as they were.
    fn look_up(&mut self, now: u64, key: &Key) -> Result<LegReply, AllocError>
        ensures { MatchResult result
            (λ reply. RecencyStep self.old now (Get key.now) reply self.new)
            (λ _. (self.new ≡ self.old) × MayLackMemory self.old now (Get key.now)) }
    {
        let Some(item) = self.items.peek(key) else {
            return Ok(LegReply::Miss);
        };
        if !is_alive(now, item.expires_at) {
            let _ = self.items.pop(key);
            return Ok(LegReply::Miss);
        }
        let reply = hit(item)?;
        self.items.promote(key);
        Ok(reply)
    }

    fn set(&mut self, now: u64, key: Key, item: CachedItem) -> Result<LegReply, AllocError>
        ensures { MatchResult result
            (λ reply. (reply ≡ Stored) × (self.new ≡ record self.old { items = after_set self.old.capacity now (key, item) self.old.items }))
            (λ _. (self.new ≡ self.old) × IsTrue (is_alive now item.expires_at) × (item_of key self.old.items ≡ None)) }
    {
        if is_alive(now, item.expires_at) {
            self.items.put(key, item)?;
        } else {
            let _ = self.items.pop(&key);
        }
        Ok(LegReply::Stored)
    }

    fn delete(&mut self, now: u64, key: Key) -> LegReply
        ensures { RecencyStep self.old now (Delete key) result self.new }
    {
        match self.items.pop(&key) {
            Some(item) if is_alive(now, item.expires_at) => LegReply::Deleted,
            _ => LegReply::NotFound,
        }
    }
}

ghost use Rattle.std.specs.Prelude.{IfOk};
ghost use Rattle.mr_join.specs.declared.leg_reply.LegReply.TheVariants.{Hit};

/// The answer to a get that finds this item.
fn hit(item: &CachedItem) -> Result<LegReply, AllocError>
    ensures { IfOk result (λ reply. reply ≡ Hit item.now.flags item.now.block) }
{
    Ok(LegReply::Hit {
        flags: item.flags,
        block: item.block.copy()?,
    })
}

impl Perform for CacheNode {
    ghost use Rattle.mr_node.specs.Recency.{RecencyStep, MayLackMemory};
    ghost use Rattle.mr_node.specs.declared.command.NodeCommand.TheVariants.{Get};

    ghost did = { RecencyStep };

    ghost refused = { λ old _ _ new. new ≡ old };

    ghost use Rattle.mr_node.specs.KindLaw.{step-IsOfKind};

    ghost of_kind = { step-IsOfKind };

    fn perform(&mut self, now: u64, command: NodeCommand) -> Result<LegReply, AllocError>
        ensures done { MatchResult result
            (λ reply. RecencyStep self.old now command reply self.new)
            (λ _. self.new ≡ self.old) }
        ensures memory { OnErr result (MayLackMemory self.old now command) }
    {
        match command {
            NodeCommand::Get(key) => self.look_up(now, &key),
            NodeCommand::Set {
                key,
                flags,
                exptime,
                block,
            } => self.set(
                now,
                key,
                CachedItem {
                    flags,
                    block,
                    expires_at: expiry_of(now, exptime),
                },
            ),
            NodeCommand::Delete(key) => Ok(self.delete(now, key)),
        }
    }

    fn get(&mut self, now: u64, key: &Key) -> Result<LegReply, AllocError>
        ensures done { MatchResult result
            (λ reply. RecencyStep self.old now (Get key.now) reply self.new)
            (λ _. self.new ≡ self.old) }
        ensures memory { OnErr result (MayLackMemory self.old now (Get key.now)) }
    {
        self.look_up(now, key)
    }
}
