//! What a setup says of the premises of its runs.
ghost use Rattle.std.specs.Prelude.{◌≡◌, ◌↔◌, ◌||◌, ℕ, List, IsTrue, IfOk, OnOk};
ghost use Rattle.std.specs.List.{list_any};
ghost use Rattle.mr_world.specs.Setup.{AllAlike, IsNewPoolEmpty, least_interval_of};
ghost use Rattle.mr_world.specs.Terms.{is_in, is_moved_to, is_among};

use crate::setup::{ProxySetup, Setup};
use mr_pools::{Pool, Routing};
use std::alloc::{AllocError, Global};
use std::collections::BTreeSet;

/// What no event changes.
#[derive(Clone, Copy, Debug)]
pub(crate) struct Terms {
    /// All proxies have one routing and one schedule.
    pub(crate) same: bool,
    /// No node of a pool that a proxy moves to held an item at the beginning.
    pub(crate) new_empty: bool,
    /// The least interval of all proxies in seconds, 0 without proxies.
    pub(crate) least: u64,
}

/// A set of names of nodes, in order: whoever writes a script chooses the names.
type Names<'a> = BTreeSet<&'a str>;

/// Adds the names of a pool.
fn add_pool<'a>(names: &mut Names<'a>, pool: &'a Pool) -> Result<(), AllocError>
    ensures { OnOk result ((name : List ℕ)
        → is_among names.new name ≡ (is_among names.old name || is_in pool.now name)) }
{
    for name in pool.names() {
        names.insert(name.as_str())?;
    }
    Ok(())
}

/// Adds the names of the nodes that a routing moves to: those of each pool other than the first.
fn add_routing<'a>(names: &mut Names<'a>, routing: &'a Routing) -> Result<(), AllocError>
    ensures { OnOk result ((name : List ℕ)
        → is_among names.new name ≡ (is_among names.old name || is_moved_to routing.now.pools name)) }
{
    let Some((_first, later)) = routing.pools().split_first() else {
        return Ok(());
    };
    for pool in later {
        add_pool(names, pool)?;
    }
    Ok(())
}

/// The names of the nodes that proxies move to.
fn names_moved_to(alloc: Global, proxies: &[ProxySetup]) -> Result<Names<'_>, AllocError>
    ensures { IfOk result (λ names. (name : List ℕ)
        → is_among names name ≡ list_any (λ proxy. is_moved_to proxy.routing.pools name) proxies.now) }
{
    let mut names = BTreeSet::new(alloc);
    for proxy in proxies {
        add_routing(&mut names, &proxy.routing)?;
    }
    Ok(names)
}

/// Whether no node of a pool that a proxy moves to holds an item.
fn is_new_empty(alloc: Global, setup: &Setup) -> Result<bool, AllocError>
    ensures { IfOk result (λ empty. IsTrue empty ↔ IsNewPoolEmpty setup.now) }
{
    let names = names_moved_to(alloc, setup.proxies())?;
    for item in setup.held() {
        if names.contains(item.node.as_str()) {
            return Ok(false);
        }
    }
    Ok(true)
}

/// Whether two proxies have one routing and one schedule.
fn is_like(one: &ProxySetup, other: &ProxySetup) -> bool
    ensures { IsTrue result ↔ ((one.now.routing ≡ other.now.routing) × (one.now.schedule ≡ other.now.schedule)) }
{
    one.routing.same_as(&other.routing) && one.schedule.same_as(&other.schedule)
}

/// Whether all proxies have the routing and the schedule of the first.
fn are_alike(proxies: &[ProxySetup]) -> bool
    ensures { IsTrue result ↔ AllAlike proxies.now }
{
    let Some((first, rest)) = proxies.split_first() else {
        return true;
    };
    for proxy in rest {
        if !is_like(proxy, first) {
            return false;
        }
    }
    true
}

/// The least interval of all proxies, 0 without proxies.
fn least_of(proxies: &[ProxySetup]) -> u64
    ensures { result ≡ least_interval_of proxies.now }
{
    let Some((first, rest)) = proxies.split_first() else {
        return 0;
    };
    let mut least = first.schedule.least_interval();
    for proxy in rest {
        least = least.min(proxy.schedule.least_interval());
    }
    least
}

impl Terms {
    /// The terms of a setup.
    pub(crate) fn of(alloc: Global, setup: &Setup) -> Result<Terms, AllocError>
        ensures same { IfOk result (λ terms. IsTrue terms.same ↔ AllAlike setup.now.proxies) }
        ensures new_empty { IfOk result (λ terms. IsTrue terms.new_empty ↔ IsNewPoolEmpty setup.now) }
        ensures least { IfOk result (λ terms. terms.least ≡ least_interval_of setup.now.proxies) }
    {
        Ok(Terms {
            same: are_alike(setup.proxies()),
            new_empty: is_new_empty(alloc, setup)?,
            least: least_of(setup.proxies()),
        })
    }
}
