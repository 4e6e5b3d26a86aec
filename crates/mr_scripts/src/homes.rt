//! The nodes of a setup's proxies, looked up in its JSON values without making them.
ghost use Rattle.std.specs.Prelude.{◌≡◌, ◌||◌, map, option_map, option_and_then, IfOk, OnOk};
ghost use Rattle.std.specs.List.{list_all};
ghost use Rattle.serde_json.specs.Find.{as_str};
ghost use Rattle.serde_json.specs.View.{view, items_view};
ghost use Rattle.mr_scripts.specs.Homes.{servers_at, names_behind, names_after, pools_before, pools_along, pools_at, config_at, values_name, node_at, are_housed, values_have_room};
ghost use Rattle.mr_configs.specs.Fields.{Text, is_one_of};
ghost use Rattle.mr_configs.specs.Pools.{names_in};
ghost use Rattle.mr_configs.specs.Route.{name_pointed_to};
ghost use Rattle.mr_scripts.specs.steps.HomeIndex.{has_name, IsIndexOf};
ghost use Rattle.mr_scripts.specs.Setups.{pools_name};

use mr_configs::{is_among, name_pointed_to};
use mr_phases::MAX_HOPS;
use serde_json::Value;
use std::alloc::{AllocError, Global};
use std::collections::BTreeSet;

/// The nodes of a configuration's pool of this name.
fn servers_at<'a>(config: &'a Value, name: &str) -> Option<&'a Vec<Value>>
    ensures { option_map (λ values. items_view values.now.items) result ≡ servers_at (view config.now) name.now }
{
    config.get("pools")?.get(name)?.get("servers")?.as_array()
}

/// The names of the pool that a text points to.
fn servers_behind<'a>(config: &'a Value, value: &Value) -> Option<&'a Vec<Value>>
    ensures { option_map (λ values. items_view values.now.items) result
        ≡ option_and_then (servers_at (view config.now)) (option_and_then name_pointed_to (as_str (view value.now))) }
{
    servers_at(config, name_pointed_to(value.as_str()?)?)
}

/// The names of the pool that a value points to; none where there is no such pool.
#[tactic(auto, using(mr_configs::proofs::FieldLemmas::values_in_items))]
fn names_behind<'a>(config: &'a Value, value: &Value) -> &'a [Value]
    ensures { names_in (map view result.now) ≡ names_behind (view config.now) (view value.now) }
{
    match servers_behind(config, value) {
        Some(values) => values.as_slice(),
        None => &[],
    }
}

/// The names of the pool that a route moves to.
fn names_after<'a>(config: &'a Value, route: &Value) -> &'a [Value]
    ensures { names_in (map view result.now) ≡ names_after (view config.now) (view route.now) }
{
    match route.get("to") {
        Some(to) => names_behind(config, to),
        None => &[],
    }
}

/// Whether a pool before the one that a route moves to has a node of this name. No more routes than this are looked at.
#[tactic(auto, using(crate::proofs::PoolsAlongLemmas::none_named, crate::proofs::PoolsAlongLemmas::one_named))]
#[cycle(named)]
fn has_node_before(config: &Value, route: &Value, routes: u32, name: &str) -> bool
    ensures { result ≡ pools_name (pools_before routes (view config.now) (view route.now)) name.now }
{
    match route.get("from") {
        None => false,
        Some(from) if from.is_string() => is_among(names_behind(config, from), name),
        Some(from) => has_node_along(config, from, routes, name),
    }
}

/// Whether a pool of a route has a node of this name. No more routes than this are looked at.
#[tactic(auto, using(crate::proofs::PoolsAlongLemmas::none_named, crate::proofs::PoolsAlongLemmas::one_named))]
#[cycle(named)]
fn has_node_along(config: &Value, route: &Value, routes: u32, name: &str) -> bool
    ensures { result ≡ pools_name (pools_along routes (view config.now) (view route.now)) name.now }
{
    if routes == 0 {
        return false;
    }
    has_node_before(config, route, routes - 1, name) || is_among(names_after(config, route), name)
}

/// Whether a pool of the configuration has a node of this name.
fn has_node(config: &Value, name: &str) -> bool
    ensures { result ≡ pools_name (pools_at (view config.now)) name.now }
{
    match config.get("route") {
        Some(route) => has_node_along(config, route, MAX_HOPS, name),
        None => false,
    }
}

/// The configuration of a proxy: its own, or else the common one.
fn config_at<'a>(common: &'a Value, proxy: &'a Value) -> &'a Value
    ensures { view result.now ≡ config_at (view common.now) (view proxy.now) }
{
    proxy.get("config").unwrap_or(common)
}

/// Whether some proxy has a node of this name.
fn values_name(common: &Value, proxies: &[Value], name: &str) -> bool
    ensures { result ≡ values_name (view common.now) (map view proxies.now) name.now }
{
    for proxy in proxies {
        if has_node(config_at(common, proxy), name) {
            return true;
        }
    }
    false
}

/// The name of the node that holds an item; none where there is none.
fn node_at(item: &Value) -> &str
    ensures { result.now ≡ node_at (view item.now) }
{
    item.get("node").and_then(Value::as_str).unwrap_or("")
}

/// Adds the names of a pool to an index.
fn add_names<'a>(index: &mut BTreeSet<&'a str>, values: &'a [Value]) -> Result<(), AllocError>
    ensures { OnOk result ((name : Text)
        → has_name index.new name ≡ (is_one_of (names_in (map view values.now)) name || has_name index.old name)) }
{
    for value in values {
        index.insert(value.as_str().unwrap_or(""))?;
    }
    Ok(())
}

/// Adds the names of the pools before the one that a route moves to. No more routes than this are looked at.
#[tactic(auto, using(crate::proofs::PoolsAlongLemmas::none_named, crate::proofs::PoolsAlongLemmas::one_named))]
#[cycle(added)]
fn add_before<'a>(
    index: &mut BTreeSet<&'a str>,
    config: &'a Value,
    route: &Value,
    routes: u32,
) -> Result<(), AllocError>
    ensures { OnOk result ((name : Text) → has_name index.new name
        ≡ (pools_name (pools_before routes (view config.now) (view route.now)) name || has_name index.old name)) }
{
    match route.get("from") {
        None => Ok(()),
        Some(from) if from.is_string() => add_names(index, names_behind(config, from)),
        Some(from) => add_along(index, config, from, routes),
    }
}

/// Adds the names of the pools of a route. No more routes than this are looked at.
#[tactic(auto, using(crate::proofs::PoolsAlongLemmas::none_named, crate::proofs::PoolsAlongLemmas::one_named))]
#[cycle(added)]
fn add_along<'a>(
    index: &mut BTreeSet<&'a str>,
    config: &'a Value,
    route: &Value,
    routes: u32,
) -> Result<(), AllocError>
    ensures { OnOk result ((name : Text) → has_name index.new name
        ≡ (pools_name (pools_along routes (view config.now) (view route.now)) name || has_name index.old name)) }
{
    if routes == 0 {
        return Ok(());
    }
    add_before(index, config, route, routes - 1)?;
    add_names(index, names_after(config, route))
}

/// Adds the names of the pools of a configuration to an index.
fn add_nodes<'a>(index: &mut BTreeSet<&'a str>, config: &'a Value) -> Result<(), AllocError>
    ensures { OnOk result ((name : Text)
        → has_name index.new name ≡ (pools_name (pools_at (view config.now)) name || has_name index.old name)) }
{
    match config.get("route") {
        Some(route) => add_along(index, config, route, MAX_HOPS),
        None => Ok(()),
    }
}

/// The names of all proxies' nodes; those of the common configuration are added once, however many proxies share it.
fn index_of_nodes<'a>(
    alloc: Global,
    common: &'a Value,
    proxies: &'a [Value],
) -> Result<BTreeSet<&'a str>, AllocError>
    ensures { IfOk result (λ index. IsIndexOf (view common.now) (map view proxies.now) index) }
{
    let mut index = BTreeSet::new(alloc);
    let mut has_common = false;
    for proxy in proxies {
        match proxy.get("config") {
            Some(own) => add_nodes(&mut index, own)?,
            None if has_common => {}
            None => {
                add_nodes(&mut index, common)?;
                has_common = true;
            }
        }
    }
    Ok(index)
}

/// Whether each item is held by a node of the index.
fn are_indexed(index: &BTreeSet<&str>, items: &[Value]) -> bool
    ensures { result ≡ list_all (λ item. has_name index.now (node_at item)) (map view items.now) }
{
    for item in items {
        if !index.contains(node_at(item)) {
            return false;
        }
    }
    true
}

/// Whether each item is held by a node of some proxy, without memory: each item's node is compared with all nodes.
fn are_found(common: &Value, proxies: &[Value], items: &[Value]) -> bool
    ensures { result ≡ are_housed (view common.now) (map view proxies.now) (map view items.now) }
{
    for item in items {
        if !values_name(common, proxies, node_at(item)) {
            return false;
        }
    }
    true
}

/// Whether each item is held by a node of some proxy: one look-up for each item in an index of all names, which is ordered,
/// since a script may come from somebody who wants look-ups by a hash to be slow.
pub fn are_housed(alloc: Global, common: &Value, proxies: &[Value], items: &[Value]) -> bool
    ensures { result ≡ are_housed (view common.now) (map view proxies.now) (map view items.now) }
{
    match index_of_nodes(alloc, common, proxies) {
        Ok(index) => are_indexed(&index, items),
        // OutOfMemory comes after every other refusal, so where the index has no memory the names are compared one by one.
        Err(_) => are_found(common, proxies, items),
    }
}

/// Whether the nodes can hold something, or there is none.
pub fn have_room(capacity: usize, proxies: &[Value]) -> bool
    ensures { result ≡ values_have_room capacity (map view proxies.now) }
{
    proxies.is_empty() || capacity >= 1
}
