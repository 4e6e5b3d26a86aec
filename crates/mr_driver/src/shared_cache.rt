//! A cache that the loops of a node share.
ghost use Rattle.std.specs.Prelude.{◌≡◌};
ghost use Rattle.mr_node.specs.Output.{IsServed};
ghost use Rattle.mr_driver.specs.SharedCache.{IsOneStep, look_of};

use mr_loop::{Cache, CountingCache};
use mr_node::CacheNode;
use mr_text::{Reply, Request};
use std::alloc::Global;
use std::sync::{Mutex, Wait};

/// A cache that the loops of a node share. Each request takes its lock once, however many keys it has.
#[derive(Drop)]
pub struct SharedCache {
    cache: Mutex<CountingCache>,
}

/// What is known of a cache at a moment.
#[derive(Clone, Copy, Debug, PartialEq, Eq)]
pub struct CacheLook {
    /// How many items it holds.
    pub items: u64,
    /// How many it holds at most.
    pub capacity: u64,
    /// How many went since a new one took their room.
    pub evicted: u64,
}

/// What is known of a cache.
fn look_at(cache: &CountingCache) -> CacheLook
    ensures { result ≡ look_of cache.now }
{
    CacheLook {
        items: cache.len() as u64,
        capacity: cache.capacity() as u64,
        evicted: cache.evicted(),
    }
}

/// Asks a cache, in one step of it.
fn ask(cache: &mut CountingCache, alloc: Global, now: u64, request: Request) -> Reply
    requires { IsServed request }
    ensures { IsOneStep now request result }
{
    cache.answer(alloc, now, request)
}

impl SharedCache {
    /// A cache of this capacity, shared. It takes no memory.
    pub fn new(cache: CacheNode, capacity: usize) -> SharedCache
        requires { capacity ≡ cache.capacity }
    {
        SharedCache {
            cache: Mutex::new(CountingCache::new(cache, capacity)),
        }
    }

    /// By which one loop asks the cache.
    pub fn desk<'a, 'r, R: Wait>(&'a self, rt: &'r R) -> CacheDesk<'a, 'r, R> {
        CacheDesk { rt, shared: self }
    }

    /// What is known of it now.
    pub fn look<R: Wait>(&self, rt: &R) -> CacheLook {
        let cache = self.cache.lock(rt);
        look_at(&*cache)
    }
}

/// By which one loop asks a cache that others ask too.
pub struct CacheDesk<'a, 'r, R: Wait> {
    rt: &'r R,
    shared: &'a SharedCache,
}

impl<'a, 'r, R: Wait> Drop for CacheDesk<'a, 'r, R> {
    fn drop(self) {
        let Self { rt: _, shared: _ } = self;
    }
}

impl<'a, 'r, R: Wait> Cache for CacheDesk<'a, 'r, R> {
    ghost use Rattle.mr_driver.specs.SharedCache.{IsOneStep};

    ghost does = { λ _ now request outcome _. IsOneStep now request outcome };

    fn answer(&mut self, alloc: Global, now: u64, request: Request) -> Reply {
        let mut cache = self.shared.cache.lock(self.rt);
        ask(&mut *cache, alloc, now, request)
    }
}
