//! What a look says of three of the premises: one configuration, an empty new pool, no clock that went back.
ghost use Rattle.std.specs.Prelude.{◌≡◌, ◌+◌, ◌<◌, length};
ghost use Rattle.std.specs.List.{list_any};
ghost use Rattle.mr_watch.specs.Premises.{has_told, reading_of, tells_other, same_after, is_below, is_behind, has_steps_back, went_back, forward_after, may_have_begun, are_before, is_in, is_filled, may_be_filled, is_empty_pool, was_filled, was_empty, any_below, empty_after};

use crate::finding::Finding;
use crate::look::{NodeSeen, ProxySeen};
use mr_phases::Schedule;

/// What the clock of a proxy said, where it answered and told that.
pub(crate) fn reading_of(proxy: &ProxySeen<'_>) -> Option<u64>
    ensures { result ≡ reading_of proxy.now }
{
    match &proxy.told {
        Some(told) => told.clock,
        None => None,
    }
}

/// Whether one answered.
pub(crate) fn has_told(proxies: &[ProxySeen<'_>]) -> bool
    ensures { result ≡ list_any has_told proxies.now }
{
    proxies.iter().any(|proxy| proxy.told.is_some())
}

/// Whether it told another digest than this one.
pub(crate) fn tells_other(proxy: &ProxySeen<'_>, expected: &[u8]) -> bool
    ensures { result ≡ tells_other expected.now proxy.now }
{
    match &proxy.told {
        Some(told) => told.digest != expected,
        None => false,
    }
}

/// Whether one told another digest than this one.
fn any_tells_other(proxies: &[ProxySeen<'_>], expected: &[u8]) -> bool
    ensures { result ≡ list_any (tells_other expected.now) proxies.now }
{
    proxies.iter().any(|proxy| tells_other(proxy, expected))
}

/// Whether all proxies have one configuration, that of this digest: broken where a proxy tells another one, and seen to hold where
/// one answered and none does.
pub fn same_after(before: Finding, expected: &[u8], proxies: &[ProxySeen<'_>]) -> Finding
    ensures { result ≡ same_after before expected.now proxies.now }
{
    before.after(any_tells_other(proxies, expected), has_told(proxies))
}

/// Whether a reading is below one that was told before.
fn is_below(reading: Option<u64>, earlier: Option<u64>) -> bool
    ensures { result ≡ is_below reading earlier }
{
    match (reading, earlier) {
        (Some(reading), Some(earlier)) => reading < earlier,
        _ => false,
    }
}

/// Whether the same address told a later reading before.
fn is_behind(proxy: &ProxySeen<'_>, earlier: &ProxySeen<'_>) -> bool
    ensures { result ≡ is_behind proxy.now earlier.now }
{
    proxy.address == earlier.address && is_below(reading_of(proxy), reading_of(earlier))
}

/// Whether it told that its clock gave a reading before the one that it gave last.
fn has_steps_back(proxy: &ProxySeen<'_>) -> bool
    ensures { result ≡ has_steps_back proxy.now.told }
{
    match &proxy.told {
        Some(told) => told.steps_back > 0,
        None => false,
    }
}

/// Whether the same address told a later reading before, as one of these.
fn any_behind(earlier: &[ProxySeen<'_>], proxy: &ProxySeen<'_>) -> bool
    ensures { result ≡ list_any (is_behind proxy.now) earlier.now }
{
    earlier.iter().any(|before| is_behind(proxy, before))
}

/// Whether its clock went back, by what it tells or since the look before.
pub(crate) fn went_back(earlier: &[ProxySeen<'_>], proxy: &ProxySeen<'_>) -> bool
    ensures { result ≡ went_back earlier.now proxy.now }
{
    has_steps_back(proxy) || any_behind(earlier, proxy)
}

/// Whether the clock of one went back.
fn any_went_back(earlier: &[ProxySeen<'_>], proxies: &[ProxySeen<'_>]) -> bool
    ensures { result ≡ list_any (went_back earlier.now) proxies.now }
{
    proxies.iter().any(|proxy| went_back(earlier, proxy))
}

/// Whether no clock goes back, where the look before saw these: broken where one did, and seen to hold where a proxy answered and
/// none did.
pub fn forward_after(
    before: Finding,
    earlier: &[ProxySeen<'_>],
    proxies: &[ProxySeen<'_>],
) -> Finding
    ensures { result ≡ forward_after before earlier.now proxies.now }
{
    before.after(any_went_back(earlier, proxies), has_told(proxies))
}

/// Whether it answered, and its clock may have reached this second.
fn may_have_begun(proxy: &ProxySeen<'_>, start: u64) -> bool
    ensures { result ≡ may_have_begun start proxy.now }
{
    match &proxy.told {
        Some(told) => match told.clock {
            Some(reading) => reading >= start,
            None => true,
        },
        None => false,
    }
}

/// Whether one answered whose clock may have reached this second.
fn any_may_have_begun(proxies: &[ProxySeen<'_>], start: u64) -> bool
    ensures { result ≡ list_any (may_have_begun start) proxies.now }
{
    proxies.iter().any(|proxy| may_have_begun(proxy, start))
}

/// Whether a proxy answered, and each that did is before this second.
pub(crate) fn are_before(proxies: &[ProxySeen<'_>], start: u64) -> bool
    ensures { result ≡ are_before start proxies.now }
{
    has_told(proxies) && !any_may_have_begun(proxies, start)
}

/// Whether it is in the pool, and holds items.
fn is_filled(node: &NodeSeen<'_>, pool: u32) -> bool
    ensures { result ≡ is_filled pool node.now }
{
    match node.items {
        Some(items) => node.pool == pool && items > 0,
        None => false,
    }
}

/// Whether it is in the pool, and wasn't seen to hold none.
fn may_be_filled(node: &NodeSeen<'_>, pool: u32) -> bool
    ensures { result ≡ may_be_filled pool node.now }
{
    match node.items {
        Some(items) => node.pool == pool && items != 0,
        None => node.pool == pool,
    }
}

/// Whether a node is in the pool.
fn any_in(nodes: &[NodeSeen<'_>], pool: u32) -> bool
    ensures { result ≡ list_any (is_in pool) nodes.now }
{
    nodes.iter().any(|node| node.pool == pool)
}

/// Whether a node is in the pool and holds items.
fn any_filled_in(nodes: &[NodeSeen<'_>], pool: u32) -> bool
    ensures { result ≡ list_any (is_filled pool) nodes.now }
{
    nodes.iter().any(|node| is_filled(node, pool))
}

/// Whether a node is in the pool that wasn't seen to hold none.
fn any_may_be_filled(nodes: &[NodeSeen<'_>], pool: u32) -> bool
    ensures { result ≡ list_any (may_be_filled pool) nodes.now }
{
    nodes.iter().any(|node| may_be_filled(node, pool))
}

/// Whether the pool has nodes, and each was seen to hold none.
fn is_empty_pool(nodes: &[NodeSeen<'_>], pool: u32) -> bool
    ensures { result ≡ is_empty_pool pool nodes.now }
{
    any_in(nodes, pool) && !any_may_be_filled(nodes, pool)
}

/// Whether the new pool of this hop holds items, though each proxy that answered is before its start.
fn was_filled(
    schedule: &Schedule,
    proxies: &[ProxySeen<'_>],
    nodes: &[NodeSeen<'_>],
    hop: u32,
) -> bool
    requires { hop < length schedule.now }
    ensures { result ≡ was_filled schedule.now proxies.now nodes.now hop }
{
    are_before(proxies, schedule.start(hop)) && any_filled_in(nodes, hop + 1)
}

/// Whether the new pool of this hop is empty, and each proxy that answered is before its start.
fn was_empty(
    schedule: &Schedule,
    proxies: &[ProxySeen<'_>],
    nodes: &[NodeSeen<'_>],
    hop: u32,
) -> bool
    requires { hop < length schedule.now }
    ensures { result ≡ was_empty schedule.now proxies.now nodes.now hop }
{
    are_before(proxies, schedule.start(hop)) && is_empty_pool(nodes, hop + 1)
}

/// Whether a new pool is filled before its migration begins.
fn any_filled(schedule: &Schedule, proxies: &[ProxySeen<'_>], nodes: &[NodeSeen<'_>]) -> bool
    ensures { result ≡ any_below (was_filled schedule.now proxies.now nodes.now) (length schedule.now) }
{
    let mut filled = false;
    for hop in 0..schedule.hops() {
        filled = filled | was_filled(schedule, proxies, nodes, hop);
    }
    filled
}

/// Whether a new pool is empty before its migration begins.
fn any_empty(schedule: &Schedule, proxies: &[ProxySeen<'_>], nodes: &[NodeSeen<'_>]) -> bool
    ensures { result ≡ any_below (was_empty schedule.now proxies.now nodes.now) (length schedule.now) }
{
    let mut empty = false;
    for hop in 0..schedule.hops() {
        empty = empty | was_empty(schedule, proxies, nodes, hop);
    }
    empty
}

/// Whether each new pool is empty when its migration begins: broken where one holds items while each proxy that answered is before
/// its start, and seen to hold where all nodes of one were seen to hold none then.
pub fn empty_after(
    before: Finding,
    schedule: &Schedule,
    proxies: &[ProxySeen<'_>],
    nodes: &[NodeSeen<'_>],
) -> Finding
    ensures { result ≡ empty_after before schedule.now proxies.now nodes.now }
{
    let broken = any_filled(schedule, proxies, nodes);
    before.after(broken, any_empty(schedule, proxies, nodes))
}
