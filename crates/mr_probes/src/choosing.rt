//! Which keys a canary has.
ghost use Rattle.std.specs.Prelude.{◌≡◌, ◌+◌, ◌<◌, ◌≤◌, ◌&&◌, ◌||◌, true, [], ◌∷◌, ◌++◌, nat_lt, not, length, if◌then◌else◌, OnOk};
ghost use Rattle.mr_pools.specs.Routing.{IsRouting};
ghost use Rattle.mr_probes.specs.Choosing.{AreChosen, IsChoice, bare_in, bare_nodes, has_bare, has_bare_in, hits_bare, is_bare};

use crate::naming::{KeyError, name_key};
use mr_pools::Routing;
use mr_text::Key;
use std::alloc::{AllocError, Global};

/// So many numbers of keys are looked at, unless more keys are asked for.
const MOST_LOOKED_AT: u64 = 65_536;

/// The keys of a canary.
#[derive(Drop)]
pub struct ChosenKeys {
    /// The keys.
    pub keys: Vec<Key>,
    /// How many nodes of the pools keep none of them.
    pub bare: usize,
}

/// Whether none of the keys lies at the node of this index, of the pool of this number.
fn is_bare(routing: &Routing, keys: &[Key], number: usize, index: usize) -> bool
    requires { number < length routing.now.pools }
    ensures { result ≡ is_bare routing.now keys.now number index }
{
    for key in keys {
        let place = routing.place(number, key);
        if place == index {
            return false;
        }
    }
    true
}

/// Whether the key lies at a node of some pool at which none of the others does.
fn hits_bare(routing: &Routing, keys: &[Key], key: &Key) -> bool
    ensures { result ≡ hits_bare routing.now keys.now key.now }
{
    for number in 0..routing.pools().len() {
        if is_bare(routing, keys, number, routing.place(number, key)) {
            return true;
        }
    }
    false
}

/// At how many nodes of a pool none of the keys lies.
fn bare_in(routing: &Routing, keys: &[Key], number: usize) -> usize
    requires { number < length routing.now.pools }
    ensures bare { result ≡ bare_in routing.now keys.now number }
    ensures few { result ≤ 1024 }
{
    let mut bare: usize = 0;
    for index in 0..routing.pool(number).len() {
        if is_bare(routing, keys, number, index) {
            bare += 1;
        }
    }
    bare
}

/// At how many nodes of all pools none of the keys lies.
fn bare_nodes(routing: &Routing, keys: &[Key]) -> usize
    ensures { result ≡ bare_nodes routing.now keys.now }
{
    let mut bare: usize = 0;
    for number in 0..routing.pools().len() {
        bare += bare_in(routing, keys, number);
    }
    bare
}

/// Whether none of the keys lies at some node of a pool.
fn has_bare_in(routing: &Routing, keys: &[Key], number: usize) -> bool
    requires { number < length routing.now.pools }
    ensures { result ≡ has_bare_in routing.now keys.now number }
{
    for index in 0..routing.pool(number).len() {
        if is_bare(routing, keys, number, index) {
            return true;
        }
    }
    false
}

/// Whether none of the keys lies at some node of some pool.
fn has_bare(routing: &Routing, keys: &[Key]) -> bool
    ensures bare { result ≡ has_bare routing.now keys.now }
    ensures routing { IsRouting routing.now }
{
    for number in 0..routing.pools().len() {
        if has_bare_in(routing, keys, number) {
            return true;
        }
    }
    false
}

/// Whether these are so many and some lies at each node, behind the key of a number.
fn are_enough(routing: &Routing, keys: &[Key], count: u64, number: u64) -> bool
    requires { number < 18446744073709551615 }
    ensures enough { result ≡ (not (nat_lt (number + 1) count) && not (has_bare routing.now keys.now)) }
    ensures routing { result ≡ true → IsRouting routing.now }
{
    number + 1 >= count && !has_bare(routing, keys)
}

/// Whether the key of a number is taken behind these.
fn is_taken(routing: &Routing, keys: &[Key], count: u64, number: u64, key: &Key) -> bool
    ensures { result ≡ nat_lt number count || hits_bare routing.now keys.now key.now }
{
    number < count || hits_bare(routing, keys, key)
}

/// Puts a key behind the others, where it is taken.
fn add_if(taken: bool, keys: &mut Vec<Key>, key: Key) -> Result<(), AllocError>
    ensures { OnOk result (keys.new.items ≡ (if taken then keys.old.items ++ key ∷ [] else keys.old.items)) }
{
    if taken {
        keys.push(key)?;
    }
    Ok(())
}

/// The keys that are chosen. No number is looked at any more once there are enough of them.
fn keys_of(
    alloc: Global,
    routing: &Routing,
    prefix: &str,
    run: u64,
    count: u64,
) -> Result<Vec<Key>, KeyError>
    ensures { AreChosen routing.now prefix.now run count result }
{
    let mut keys = Vec::new(alloc);
    for number in 0..MOST_LOOKED_AT.max(count) {
        let key = name_key(alloc, prefix, run, number)?;
        let taken = is_taken(routing, &keys, count, number, &key);
        add_if(taken, &mut keys, key)?;
        if taken && are_enough(routing, &keys, count, number) {
            return Ok(keys);
        }
    }
    Ok(keys)
}

/// Chooses the keys of a run: the first so many, and behind them each further one that lies at a node, of any pool, at which none
/// before it does. 65,536 numbers are looked at, or as many as keys are asked for, unless each node has a key earlier.
pub fn choose_keys(
    alloc: Global,
    routing: &Routing,
    prefix: &str,
    run: u64,
    count: u64,
) -> Result<ChosenKeys, KeyError>
    ensures { IsChoice routing.now prefix.now run count result }
{
    let keys = keys_of(alloc, routing, prefix, run, count)?;
    let bare = bare_nodes(routing, &keys);
    Ok(ChosenKeys { keys, bare })
}
